// The judgement of a case: 24 and 31 to 35, each the first that applies.
#![tactic(auto)]

ghost use Rattle.std.specs.Prelude.{◌≡◌, ◌&&◌, ltb};
ghost use Rattle.standing.specs.Standing.{is_closed};
ghost use Rattle.collector.specs.Cases.{items_of};
ghost use Rattle.collector.specs.Sound.{Sound};
ghost use Rattle.meaning.specs.Judged.{start_of};
ghost use Rattle.verdict.specs.Verdict.{before_marks, verdict};
ghost use Rattle.tables.specs.Tables.{tables_of};

use answers::Rejection;
use collector::Case;
use kinds::Counts;
use standing::Loops;
use tables::Tables;

// Whether there is a sentence, and the endless loop has closed.
pub fn finished(count: Counts, loops: Loops) -> bool
    ensures { result ≡ (ltb 0 count.sentences && is_closed loops count.places) }
{
    0 < count.sentences && loops.closed(count.places)
}

// 24, 31, 32 and 33, the first that applies, or 0.
#[tactic(auto, using(crate::specs::Stages::wrong_start))]
pub fn before_marks(c: Case, t: Tables) -> Result<(), Rejection>
    requires { (Sound c) × (t ≡ tables_of (items_of c)) }
    ensures { result ≡ before_marks (items_of c) (start_of (items_of c)) }
{
    if !finished(c.count, c.loops) {
        return Err(Rejection::Unfinished(c.count.total()));
    }
    if c.places[0].state != 0 {
        return Err(Rejection::WrongStart);
    }
    if let Some((p, m)) = ways::unconnected(c) {
        return Err(Rejection::Unconnected(p, m));
    }
    if let Some((p, g)) = ways::guard_fails(c, t) {
        return Err(Rejection::GuardFails(p, g));
    }
    Ok(())
}

// The judgement of a case: 24, 31, 32, 33, 34, 35, the first that applies, or 0.
pub fn judge(c: Case) -> Result<(), Rejection>
    requires { Sound c }
    ensures { result ≡ verdict (items_of c) (start_of (items_of c)) }
{
    let tables = Tables::of(c);
    before_marks(c, tables)?;
    if let Some((p, i)) = marks::wrong_mark(c, tables) {
        return Err(Rejection::WrongMark(p, i));
    }
    let root = (c.count.sentences - 1) as u8;
    if !rounds::bit(c.places[0].marks, root) {
        return Err(Rejection::RootUnmarked(root));
    }
    Ok(())
}
