// Two regions joined, or two masks of one kernel and level count: every place of either.
#![tactic(auto)]

ghost use Rattle.std.specs.Prelude.{◌≡◌, true, length};
ghost use Rattle.refusal.specs.Numbers.{answer_number, first, accepted};
ghost use Rattle.refusal.specs.Results.{Result};
ghost use Rattle.joining.specs.Join.{join_byte, join_tests};
ghost use Rattle.joining.specs.Marks.{Marks};

use refusal::{Refusal, refuse};

// Fills the third lent buffer with the marks of the other two, for a picture of w by h samples.
// Refusals, in order: 4, 5, 9. Under a refusal the third holds what it held.
#[tactic(auto, unfolding(refusal::specs::Numbers::first))]
pub fn join(w: usize, h: usize, one: &[u8], other: &[u8], joined: &mut [u8]) -> Result<(), Refusal>
    ensures result_value { answer_number result ≡ first (join_tests w h one.now other.now (length joined.old)) }
    ensures fact { Result 0 (accepted (join_tests w h one.now other.now (length joined.old))) (join_byte one.now other.now) joined.old joined.new }
{
    refuse(refusal::bad_size(w, h), Refusal::Size)?;
    let count = w * h;
    refuse(one.len() != count, Refusal::Length)?;
    refuse(other.len() != count, Refusal::Length)?;
    refuse(joined.len() != count, Refusal::Length)?;
    refuse(refusal::bad_mark(one), Refusal::Mark)?;
    refuse(refusal::bad_mark(other), Refusal::Mark)?;
    join_all(one, other, joined);
    Ok(())
}

// Each mark of the one or of the other.
fn join_all(one: &[u8], other: &[u8], joined: &mut [u8])
    requires marks { Marks (length joined.old) one.now }
    requires marks_2 { Marks (length joined.old) other.now }
    ensures { Result 0 true (join_byte one.now other.now) joined.old joined.new }
{
    // No zip: std says only the length of what is written through one.
    for (i, mark) in joined.iter_mut().enumerate() {
        *mark = one[i] | other[i];
    }
}
