// The arguments of a call at their places: those of its rule, in order.
ghost use Rattle.std.specs.Prelude.{◌≡◌};
ghost use Rattle.std.specs.List.{position};
ghost use Rattle.st_compile.specs.Arguments.{are_at_places, args_of_name, is_at_place, is_called};

use st_calls::{ArgSpec, ArgText, args_of};
use st_filter::FilterName;

/// The arguments that are judged under what a filter is for, in order.
pub fn args_of_name(name: &FilterName) -> &'static [ArgSpec]
    ensures { result.now ≡ args_of_name name.now }
{
    match name {
        FilterName::Rule(rule) => args_of(*rule),
        FilterName::Other(_) => &[],
    }
}

/// The place of the argument with a label of this name and this index, among those of a rule.
pub fn place_called(specs: &[ArgSpec], label: &[u8], index: u32) -> Option<usize>
    ensures { result ≡ position (is_called label.now index) specs.now }
{
    specs
        .iter()
        .position(|spec| spec.label.word() == label && spec.index == index)
}

// Whether an argument of a call has the label and the index of a rule's argument.
fn is_at_place(spec: &ArgSpec, argument: &ArgText) -> bool
    ensures { result ≡ is_at_place spec.now argument.now }
{
    argument.label == spec.label && argument.index == spec.index
}

/// Whether a call's arguments are those of a rule, in order.
pub fn are_at_places(specs: &[ArgSpec], arguments: &[ArgText]) -> bool
    ensures { result ≡ are_at_places specs.now arguments.now }
{
    let mut left = arguments;
    for spec in specs {
        match left {
            [argument, following @ ..] => {
                if !is_at_place(spec, argument) {
                    return false;
                }
                left = following;
            }
            [] => return false,
        }
    }
    left.is_empty()
}
