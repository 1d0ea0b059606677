ghost use Rattle.std.specs.Prelude.{◌≡◌, ◌<◌};
ghost use Rattle.st_model.specs.Permission.{bit_of, permission_bits, has_bit, is_executable, is_permitted, root_is_allowed};

/// An access to an object of the file tree, as in access(2).
#[derive(Clone, Copy, Debug, PartialEq, Eq)]
pub enum Want {
    Read,
    Write,
    /// Search of a directory, to go through it.
    Search,
    Execute,
}

/// An object's owner and group, and its mode, which has the permission bits of its owner, its group and all others.
#[derive(Clone, Copy, Debug, PartialEq, Eq)]
pub struct Permission {
    pub uid: u32,
    pub gid: u32,
    pub mode: u32,
}

// The permission bit, of three, that an access needs.
fn bit_of(want: Want) -> u32
    ensures bit { result ≡ bit_of want }
    ensures some { 0 < result }
{
    match want {
        Want::Read => 4,
        Want::Write => 2,
        Want::Search | Want::Execute => 1,
    }
}

// Whether this bit is set in the bits.
fn has_bit(bits: u32, bit: u32) -> bool
    requires { 0 < bit }
    ensures { result ≡ has_bit bits bit }
{
    bits / bit % 2 == 1
}

// Whether the owner, the group or the others may execute.
fn is_executable(mode: u32) -> bool
    ensures { result ≡ is_executable mode }
{
    has_bit(mode, 64) || has_bit(mode, 8) || has_bit(mode, 1)
}

// Whether user 0 has an access: always, except that it may not execute what nobody may execute.
fn root_is_allowed(mode: u32, want: Want) -> bool
    ensures { result ≡ root_is_allowed mode want }
{
    match want {
        Want::Read | Want::Write | Want::Search => true,
        Want::Execute => is_executable(mode),
    }
}

impl Permission {
    // The three permission bits that apply to a user and a group.
    fn bits_for(self, uid: u32, gid: u32) -> u32
        ensures { result ≡ permission_bits self uid gid }
    {
        if uid == self.uid {
            self.mode / 64 % 8
        } else if gid == self.gid {
            self.mode / 8 % 8
        } else {
            self.mode % 8
        }
    }

    /// Whether a user and a group have this access. The owner's bits decide for the owner, the group's bits for its group, and the
    /// others' bits for all others. User 0 has every access, except that it may not execute what nobody may execute.
    pub fn is_permitted(self, uid: u32, gid: u32, want: Want) -> bool
        ensures { result ≡ is_permitted self uid gid want }
    {
        if uid == 0 {
            root_is_allowed(self.mode, want)
        } else {
            has_bit(self.bits_for(uid, gid), bit_of(want))
        }
    }
}
