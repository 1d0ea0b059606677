ghost use Rattle.std.specs.Prelude.{◌≡◌, take, IfOk};
ghost use Rattle.std.specs.Option.{option_map};
ghost use Rattle.st_law.specs.Arguments.{is_link_node, link_met, link_of_part, link_on_way};
ghost use Rattle.st_model.specs.Tree.{node_of_number};
ghost use Rattle.st_names.specs.Name.{components_of};
ghost use Rattle.st_tree.specs.Refusals.{IsObjectNumber};

use st_base::Obj;
use st_calls::{ArgText, PartKind, Rule, SysCall, args_of, follows};
use st_names::{AbsName, is_component, split_at_slashes};
use st_tree::{Kind, Tree};
use std::alloc::{AllocError, Global};

// Whether an object is a link.
fn is_link(tree: &Tree, obj: Obj) -> bool
    requires { IsObjectNumber tree.now obj }
    ensures { result ≡ is_link_node (node_of_number tree.now obj) }
{
    match tree.node(obj).kind {
        Kind::Link => true,
        Kind::Dir | Kind::File => false,
    }
}

// How many components lead to the first link on the way to a name, if there is one: one lookup for each component.
fn parts_to_link(tree: &Tree, follow: bool, text: &[u8]) -> Option<usize>
    ensures { link_on_way tree.now follow (components_of text.now) ≡ option_map (λ count. take count (components_of text.now)) result }
{
    let mut obj = tree.root();
    let mut count = 0;
    for part in split_at_slashes(text) {
        if !is_component(part) {
            continue;
        }
        if is_link(tree, obj) {
            return Some(count);
        }
        obj = tree.child(obj, part)?;
        count += 1;
    }
    if follow && is_link(tree, obj) {
        Some(count)
    } else {
        None
    }
}

// The name that the first `count` components of a text spell from the root.
fn front_of_name(alloc: Global, text: &[u8], count: usize) -> Result<AbsName, AllocError>
    ensures { IfOk result (λ name. name ≡ take count (components_of text.now)) }
{
    let mut name = AbsName::root(alloc);
    let mut left = count;
    for part in split_at_slashes(text) {
        if left == 0 {
            break;
        }
        if is_component(part) {
            name.push(part)?;
            left -= 1;
        }
    }
    Ok(name)
}

// The first link on the way to an argument with this text, if the argument is a name and there is such a link.
fn link_of_part(
    alloc: Global,
    tree: &Tree,
    kind: PartKind,
    follow: bool,
    text: &[u8],
) -> Result<Option<AbsName>, AllocError>
    ensures { IfOk result (λ link. link ≡ link_of_part kind tree.now follow text.now) }
{
    if kind != PartKind::Name {
        return Ok(None);
    }
    match parts_to_link(tree, follow, text) {
        Some(count) => Ok(Some(front_of_name(alloc, text, count)?)),
        None => Ok(None),
    }
}

/// The link in the way of a call: the first link that is a proper prefix of one of its names, or a name itself if the call follows
/// a link at its end. The first name with such a link decides. Takes a lookup for each component, and no memory but for the result.
pub fn link_met(
    alloc: Global,
    tree: &Tree,
    rule: Rule,
    call: SysCall,
    regs: &[u64; 6],
    args: &[ArgText],
) -> Result<Option<AbsName>, AllocError>
    ensures { IfOk result (λ link. link ≡ link_met tree.now rule call regs.now args.now) }
{
    for (spec, arg) in args_of(rule).iter().zip(args) {
        let follow = follows(call, regs, spec.register);
        if let Some(link) = link_of_part(alloc, tree, spec.kind, follow, arg.text.bytes())? {
            return Ok(Some(link));
        }
    }
    Ok(None)
}
