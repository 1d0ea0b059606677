ghost use Rattle.std.specs.Prelude.{◌≡◌, ℕ, ◌+◌, ◌*◌, ◌^◌, ◌<◌, slice_index};
ghost use Rattle.std.specs.Int.{w64, to_le_bytes};
ghost use Rattle.st_effects.specs.Sockets.{port_in};
ghost use Rattle.st_model.specs.Spelling.{address_text};

/// The text of an address has the port of its word, the high byte first. So each address has a port of 16 bits, as bind(2) and
/// connect(2) need it.
pub fn addresses_have_ports()
    ensures port { (word : ℕ) → port_in (address_text (to_le_bytes w64 word)) ≡ 256 * slice_index (to_le_bytes w64 word) 2 + slice_index (to_le_bytes w64 word) 3 }
    ensures small { (word : ℕ) → port_in (address_text (to_le_bytes w64 word)) < 2 ^ 16 }
{}
