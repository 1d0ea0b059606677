// An argument in one step: copied from memory, and resolved in the tree, as both are.
ghost use Rattle.std.specs.Prelude.{◌≡◌, ℕ, true, None, slice_index_or, IsErrOf, IfOk};
ghost use Rattle.st_arguments.specs.Parts.{surroundings, IsArgument, IsFaultOf, IsSpelledBy};
ghost use Rattle.st_effects.specs.Progress.{is_followed};
ghost use Rattle.st_arguments.specs.declared.fault.ArgFault.TheVariants.{Os};
ghost use Rattle.st_base.specs.declared.errno.Errno.{Errno};
ghost use Rattle.st_memory.specs.Memory.{byte_in, is_space_live};
ghost use Rattle.st_model.specs.Spelling as spelling;
ghost use Rattle.st_model.specs.Walk as walk;
ghost use Rattle.st_names.specs.Name.{Components, printed_name};
ghost use Rattle.st_translate.specs.Copied.{asked_word, lies_in_memory, spelled_words};

use crate::asked::Asked;
use crate::fault::ArgFault;
use st_base::{Space, Text};
use st_calls::{ArgSpec, ArgText, PartKind, follows};
use st_exec_objects::resolve;
use st_memory::Spaces;
use st_translate::{Copying, plain_text};
use st_tree::Tree;
use std::alloc::{AllocError, Global};

// The words of an argument in memory, copied until the argument is complete or has a fault.
fn copied(
    alloc: Global,
    spaces: &Spaces,
    space: Space,
    kind: PartKind,
    at: u64,
) -> Result<Copying, AllocError>
    requires live { is_space_live spaces.now space ≡ true }
    requires kind { lies_in_memory kind ≡ true }
    ensures spelled { IfOk result (λ copying. IsSpelledBy (byte_in spaces.now space) kind at (spelled_words copying)) }
    ensures ended { IfOk result (λ copying. asked_word (spelled_words copying) ≡ None) }
{
    let mut copying = Copying::begin(alloc, kind, at)?;
    while let Some(place) = copying.next_word() {
        let Some(word) = spaces.word(space, place) else {
            unreachable!()
        };
        copying.take(word);
    }
    Ok(copying)
}

// The text that an argument spells in memory or in its register, before a name is resolved.
fn spelled_text(
    alloc: Global,
    spaces: &Spaces,
    space: Space,
    kind: PartKind,
    register: u64,
) -> Result<Text, ArgFault>
    requires { is_space_live spaces.now space ≡ true }
    ensures text { IfOk result (λ text. IsSpelledBy (byte_in spaces.now space) kind register (spelling.Text text)) }
    ensures fault { (errno : Errno) → IsErrOf result (Os errno) → IsSpelledBy (byte_in spaces.now space) kind register (spelling.Fault errno) }
{
    match kind {
        PartKind::Name | PartKind::Plain | PartKind::Addr | PartKind::Argv => {
            let copying = copied(alloc, spaces, space, kind, register)?;
            match copying.fault() {
                Some(errno) => Err(ArgFault::Os(errno)),
                None => Ok(Text::of(alloc, copying.text())?),
            }
        }
        PartKind::Decimal | PartKind::Octal | PartKind::Domain | PartKind::SockType => {
            Ok(plain_text(alloc, kind, register)?)
        }
    }
}

// The value of an argument's register.
fn register_of(asked: &Asked<'_>, spec: ArgSpec) -> u64
    ensures { result ≡ slice_index_or asked.now.regs spec.register 0 }
{
    asked.regs.get(spec.register as usize).copied().unwrap_or(0)
}

// The absolute name that the text of an argument means, as it is printed.
fn full_name(
    alloc: Global,
    tree: &Tree,
    asked: &Asked<'_>,
    spec: ArgSpec,
    text: &[u8],
) -> Result<Text, ArgFault>
    ensures name { IfOk result (λ printed. (name : Components) × (walk.resolve tree.now asked.now.cwd text.now (is_followed asked.now spec) ≡ walk.Name name) × (printed ≡ printed_name name)) }
    ensures fault { (errno : Errno) → IsErrOf result (Os errno) → walk.resolve tree.now asked.now.cwd text.now (is_followed asked.now spec) ≡ walk.Fault errno }
{
    let follow = follows(asked.call, &asked.regs, spec.register);
    let name = resolve(alloc, tree, asked.cwd, text, follow)?;
    Ok(name.print(alloc)?)
}

// An argument: the text that it spells in this memory space; a name is resolved in the tree.
pub(crate) fn argument(
    alloc: Global,
    tree: &Tree,
    spaces: &Spaces,
    space: Space,
    asked: &Asked<'_>,
    spec: ArgSpec,
) -> Result<ArgText, ArgFault>
    requires { is_space_live spaces.now space ≡ true }
    ensures arg { IfOk result (λ arg. IsArgument asked.now (surroundings tree.now spaces.now space) spec arg) }
    ensures fault { (errno : Errno) → IsErrOf result (Os errno) → IsFaultOf asked.now (surroundings tree.now spaces.now space) spec errno }
{
    let spelled = spelled_text(alloc, spaces, space, spec.kind, register_of(asked, spec))?;
    let text = match spec.kind {
        PartKind::Name => full_name(alloc, tree, asked, spec, spelled.bytes())?,
        _ => spelled,
    };
    Ok(ArgText {
        label: spec.label,
        index: spec.index,
        text,
    })
}
