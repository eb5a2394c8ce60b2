// Which of the printed lines step two uses (document 02, T-04): a selection is a 64-bit number whose bit i stands for line i, in 01's order.

#![tactic(auto)]

ghost use Rattle.std.specs.Prelude.{◌≡◌, ◌<◌};
ghost use Rattle.refusals.specs.Numbers.{answer_number};
ghost use Rattle.selection.specs.Selection.{names as names_line, lines_named, selection_refusal};

use refusals::Refusal;

// Whether a selection names line i.
#[tactic(auto, unfolding(crate::specs::Selection::names))]
pub fn names(selection: u64, i: usize) -> bool
    requires { i < 49 }
    ensures { result ≡ names_line selection i }
{
    (selection >> i) % 2 == 1
}

// Refused: 14, a bit above 48.
#[tactic(auto, unfolding(crate::specs::Selection::selection_refusal))]
pub fn tested(selection: u64) -> Result<(), Refusal>
    ensures { answer_number result ≡ selection_refusal selection }
{
    if limits::is_selection(selection) {
        Ok(())
    } else {
        Err(Refusal::SelectionValue)
    }
}

// How many lines a selection names.
#[tactic(auto, using(crate::proofs::Laws::lines_counted))]
pub fn lines_named(selection: u64) -> u32
    requires { selection_refusal selection ≡ 0 }
    ensures { result ≡ lines_named selection }
{
    selection.count_ones()
}
