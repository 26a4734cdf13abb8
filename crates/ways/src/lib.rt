// The ways of a plan: 32, the first that doesn't connect, and 33, the first guard that fails.
#![tactic(auto)]

ghost use Rattle.std.specs.Prelude.{◌≡◌, cond, ◌&&◌, eqb, ◌+◌, ◌-◌, ◌≤◌};
ghost use Rattle.kinds.specs.declared.Kind.TheVariants as kind;
ghost use Rattle.collector.specs.Cases.{items_of};
ghost use Rattle.items.specs.Lists.{room_of};
ghost use Rattle.rules.specs.Rules.{Closed};
ghost use Rattle.collector.specs.Sound.{Sound};
ghost use Rattle.meaning.specs.Run.{stretch, back_of};
ghost use Rattle.meaning.specs.Judged.{start_of, ways_of, tests_of};
ghost use Rattle.verdict.specs.declared.Rounds.TheVariants as rounds;
ghost use Rattle.verdict.specs.Rounds.{rounds_of, later};
ghost use Rattle.verdict.specs.Verdict.{first_not, connects, passes};
ghost use Rattle.tables.specs.Tables.{tables_of};
ghost use Rattle.ways.specs.Told.{told_way, told_test};
ghost use Rattle.ways.specs.Tests.{guard_by};

use collector::Case;
use items::{LoopMark, Move, PlaceNo};
use tables::Tables;
use verdict::Rounds;

// The place that a way into place p comes from: the last place of the loop that p begins, or the place before.
fn place_before(p: usize, mark: LoopMark, back: bool) -> usize
    requires { (1 ≤ stretch mark) × (p + stretch mark ≤ room_of kind.Place) }
    ensures { result ≡ cond back (p + stretch mark - 1) (p - 1) }
{
    if back {
        return p + rounds::stretch(mark) - 1;
    }
    p.saturating_sub(1)
}

// Whether a move leads from one state to the other.
fn leads(m: Move, from: u8, to: u8) -> bool
    ensures { result ≡ (eqb m.from from && eqb m.to to) }
{
    m.from == from && m.to == to
}

// The first way that doesn't connect: by place, the way in before the back move.
pub fn unconnected(c: Case) -> Option<(PlaceNo, u8)>
    requires { Sound c }
    ensures { result ≡ told_way (items_of c) (first_not (connects (items_of c)) (ways_of (items_of c))) }
{
    for k in 0..2 * c.count.places {
        let p = k / 2;
        let back = k % 2 == 1;
        let place = c.places[p];
        let Some(t) = collector::move_into(place, back) else {
            continue;
        };
        let q = place_before(p, place.mark, back);
        if !leads(c.moves[t as usize], c.places[q].state, place.state) {
            return Some((PlaceNo(p), t));
        }
    }
    None
}

// One of the two guards of a move.
fn guard_by(m: Move, second: bool) -> Option<u8>
    ensures { result ≡ guard_by second m }
{
    if second {
        return m.guard2;
    }
    m.guard1
}

// The rounds in which a way into a place is taken: a back move in all but the first of the loop that the place begins; a way in once, where the place
// begins a stretch, else in all rounds of the loop around it.
fn rounds_by(back: bool, begins: bool, own: LoopMark, around: LoopMark) -> Rounds
    ensures { result ≡ cond back (later (rounds_of own)) (cond begins (rounds.UpTo 0) (rounds_of around)) }
{
    if back {
        return rounds::later(rounds::rounds_of(own));
    }
    if begins {
        return Rounds::UpTo(0);
    }
    rounds::rounds_of(around)
}

// The first guard that fails when its way is taken: by place, the way in before the back move, the first guard of the move before the second.
pub fn guard_fails(c: Case, t: Tables) -> Option<(PlaceNo, u8)>
    requires { (Sound c) × (t ≡ tables_of (items_of c)) × (Closed (items_of c)) }
    ensures { result ≡ told_test (first_not (passes (items_of c) (start_of (items_of c))) (tests_of (items_of c))) }
{
    for k in 0..4 * c.count.places {
        let w = k / 2;
        let p = w / 2;
        let back = w % 2 == 1;
        let place = c.places[p];
        let Some(m) = collector::move_into(place, back) else {
            continue;
        };
        let Some(g) = guard_by(c.moves[m as usize], k % 2 == 1) else {
            continue;
        };
        let f = t.firsts.at[p] as usize;
        let rounds = rounds_by(back, f == p, place.mark, c.places[f].mark);
        let through = guards::guard_through(
            c.guards[g as usize],
            t.bases.at[p],
            c.drifts[f],
            back,
            rounds,
        );
        if !rounds::is_always(through) {
            return Some((PlaceNo(p), g));
        }
    }
    None
}
