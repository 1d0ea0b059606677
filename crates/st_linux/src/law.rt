ghost use Rattle.std.specs.Prelude.{◌≡◌, ◌≢◌, ◌↔◌, ◌⊎◌, ℕ, List, [], ◌∷◌, length, map, Some, slice_get};
ghost use Rattle.std.specs.List.{All, Contains};
ghost use Rattle.std.specs.Int.{bit_at};
ghost use Rattle.st_base.specs.Errno.{number_of_error};
ghost use Rattle.st_base.specs.declared.errno.Errno.{Errno};
ghost use Rattle.st_base.specs.declared.errno.Errno.TheVariants.{EAGAIN, EADDRINUSE, ECONNREFUSED, ELOOP, ENAMETOOLONG, ENOTEMPTY, ENOSYS};
ghost use Rattle.st_trace.specs.declared.start.Start.{Start};
ghost use Rattle.st_trace.specs.declared.start.ThreadRow.{ThreadRow};
ghost use Rattle.st_law.specs.declared.input.Input.{Input};
ghost use Rattle.st_law.specs.Inputs.{CanStart, IsStartable};
ghost use Rattle.st_reached.specs.Scripts.{IsBounded};
ghost use Rattle.st_reached.specs.Runnable.{CanRun};
ghost use Rattle.st_linux.specs.Errors.{linux_number};
ghost use Rattle.st_linux.specs.Flags.{native_flags};
ghost use Rattle.st_linux.specs.Laws.{IsNativeRow};
ghost use Rattle.st_linux.specs.Native.{to_native};

/// The native flags for flags of Linux, bit by bit. The requested access, in bits 0 and 1, is kept. Each of the four flags is set exactly
/// when its flag of Linux is. No other bit is set.
pub fn flags_are_kept_one_to_one()
    ensures read { (flags : ℕ) → bit_at (native_flags flags) 0 ≡ bit_at flags 0 }
    ensures write { (flags : ℕ) → bit_at (native_flags flags) 1 ≡ bit_at flags 1 }
    ensures create { (flags : ℕ) → bit_at (native_flags flags) 9 ≡ bit_at flags 6 }
    ensures exclusive { (flags : ℕ) → bit_at (native_flags flags) 11 ≡ bit_at flags 7 }
    ensures truncate { (flags : ℕ) → bit_at (native_flags flags) 10 ≡ bit_at flags 9 }
    ensures append { (flags : ℕ) → bit_at (native_flags flags) 3 ≡ bit_at flags 10 }
    ensures no_more { (flags k : ℕ) → k ≢ 0 → k ≢ 1 → k ≢ 3 → k ≢ 9 → k ≢ 10 → k ≢ 11 → bit_at (native_flags flags) k ≡ 0 }
{}

/// Seven errors have another number in Linux, and no others: EAGAIN 11, EADDRINUSE 98, ECONNREFUSED 111, ELOOP 40, ENAMETOOLONG 36, ENOTEMPTY
/// 39 and ENOSYS 38. Different errors have different numbers there.
pub fn seven_numbers_differ()
    ensures seven { All (λ errno. linux_number errno ≢ number_of_error errno) (EAGAIN ∷ EADDRINUSE ∷ ECONNREFUSED ∷ ELOOP ∷ ENAMETOOLONG ∷ ENOTEMPTY ∷ ENOSYS ∷ []) }
    ensures others { (errno : Errno) → (linux_number errno ≡ number_of_error errno) ⊎ Contains (EAGAIN ∷ EADDRINUSE ∷ ECONNREFUSED ∷ ELOOP ∷ ENAMETOOLONG ∷ ENOTEMPTY ∷ ENOSYS ∷ []) errno }
    ensures numbers { map linux_number (EAGAIN ∷ EADDRINUSE ∷ ECONNREFUSED ∷ ELOOP ∷ ENAMETOOLONG ∷ ENOTEMPTY ∷ ENOSYS ∷ []) ≡ 11 ∷ 98 ∷ 111 ∷ 40 ∷ 36 ∷ 39 ∷ 38 ∷ [] }
    ensures apart { (a b : Errno) → linux_number a ≡ linux_number b → a ≡ b }
{}

/// A start that is made native differs only in the flags of opens.
pub fn only_flags_of_opens_change()
    ensures users { (start : Start) → (to_native start).users ≡ start.users }
    ensures groups { (start : Start) → (to_native start).groups ≡ start.groups }
    ensures tree { (start : Start) → (to_native start).tree ≡ start.tree }
    ensures processes { (start : Start) → (to_native start).processes ≡ start.processes }
    ensures as_many { (start : Start) → length (to_native start).threads ≡ length start.threads }
    ensures threads { (start : Start) (k : ℕ) (row : ThreadRow) → slice_get start.threads k ≡ Some row → (native : ThreadRow) × (slice_get (to_native start).threads k ≡ Some native) × IsNativeRow row native }
{}

/// What a run requires of its input holds of an input exactly when it holds of it with its start made native.
pub fn a_native_start_can_run_as_well()
    ensures startable { (input : Input) → IsStartable input ↔ IsStartable (record input { start = to_native input.start }) }
    ensures system { (input : Input) → CanStart input ↔ CanStart (record input { start = to_native input.start }) }
    ensures bounded { (start : Start) → IsBounded start ↔ IsBounded (to_native start) }
    ensures runs { (input : Input) → CanRun input ↔ CanRun (record input { start = to_native input.start }) }
{}
