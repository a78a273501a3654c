// What an answer reads as: `refused` and the refusal's three numbers, or `ok` and the answer's.
#![tactic(auto)]

ghost use Rattle.std.specs.Prelude.{◌≡◌};
ghost use Rattle.dates.specs.Answers.{dated_of};
ghost use Rattle.answers.specs.Readings.{dated_line};
ghost use Rattle.answers.specs.Promises.{OfRefusalMeets, FineMeets, OfJudgedMeets, OfLeastMeets, OfOfferedMeets, OfDatingMeets};

use dates::Dating;
use least::LeastCounts;
use offers::HistoryCounts;
use showing::Line;
use trees::Refusal;

pub fn of_refusal(r: Refusal) -> Line
    ensures { OfRefusalMeets r result }
{
    Line {
        refused: true,
        count: 3,
        numbers: [u64::from(r.number), u64::from(r.tree), r.place as u64, 0, 0],
    }
}

// `ok` and the first `count` numbers.
pub fn fine(count: usize, numbers: [u64; 5]) -> Line
    ensures { FineMeets count numbers result }
{
    Line {
        refused: false,
        count,
        numbers,
    }
}

pub fn of_judged(answer: Result<(), Refusal>) -> Line
    ensures { OfJudgedMeets answer result }
{
    match answer {
        Ok(()) => fine(0, [0, 0, 0, 0, 0]),
        Err(r) => of_refusal(r),
    }
}

pub fn of_least(answer: Result<LeastCounts, Refusal>) -> Line
    ensures { OfLeastMeets answer result }
{
    match answer {
        Ok(c) => fine(
            5,
            [
                u64::from(c.duplications),
                u64::from(c.losses),
                u64::from(c.speciations),
                u64::from(c.climbs),
                c.cost,
            ],
        ),
        Err(r) => of_refusal(r),
    }
}

pub fn of_offered(answer: Result<HistoryCounts, Refusal>) -> Line
    ensures { OfOfferedMeets answer result }
{
    match answer {
        Ok(c) => fine(
            3,
            [
                u64::from(c.duplications),
                u64::from(c.losses),
                u64::from(c.speciations),
                0,
                0,
            ],
        ),
        Err(r) => of_refusal(r),
    }
}

fn of_bounds(dating: Dating) -> Line
    ensures { result ≡ dated_line (dated_of dating) }
{
    match dating {
        Dating::NotDuplication => fine(1, [0, 0, 0, 0, 0]),
        Dating::From(s) => fine(2, [1, s.0 as u64, 0, 0, 0]),
        Dating::Between(s, t) => fine(3, [2, s.0 as u64, t.0 as u64, 0, 0]),
    }
}

pub fn of_dating(answer: Result<Dating, Refusal>) -> Line
    ensures { OfDatingMeets answer result }
{
    match answer {
        Ok(d) => of_bounds(d),
        Err(r) => of_refusal(r),
    }
}
