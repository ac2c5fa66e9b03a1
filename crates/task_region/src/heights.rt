//! Heights of nodes over a branch.
ghost use Rattle.std.specs.Prelude.{◌≡◌, ◌<◌, ◌^◌, List, length};
ghost use Rattle.tree_model.specs.Levels.{Place};
ghost use Rattle.tree_nodes.specs.Rows.{scope_number};
ghost use Rattle.task_region.specs.PlacesUp.{AreFallingPlaces, AreNumbersOf};
ghost use Rattle.task_region.specs.ScopeHeights.{height_among};

use clause_compile::Scope;

/// How many nodes of a branch a cut to a scope leaves, by the numbers of the nodes on the way down the branch.
pub(crate) fn height(numbers: &[u64], scope: Scope) -> u32
    requires few { length numbers.now < 2 ^ 32 }
    ensures { (places : List Place) → AreNumbersOf places numbers.now → AreFallingPlaces places → result ≡ height_among places (scope_number scope) }
{
    let number = number(scope);
    let at = numbers.partition_point(|node| *node < number);
    if at < numbers.len() && numbers[at] == number {
        at as u32 + 1
    } else {
        0
    }
}

fn number(scope: Scope) -> u64
    ensures { result ≡ scope_number scope }
{
    match scope {
        Scope::Node(number) | Scope::Local(number) => number,
    }
}
