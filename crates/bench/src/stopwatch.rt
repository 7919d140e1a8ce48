// Time a call, over many calls.
use rows::refusal::Refusal;
use std::rt::Clock;
use std::time::Instant;
use std::{fmt, io};

// How many nanoseconds a call took, and the sum of what all calls answered, so that none is left out.
#[derive(Clone, Copy)]
pub(super) struct CallTime {
    pub(super) nanoseconds: u128,
    sum: usize,
}

impl CallTime {
    pub(super) fn in_unit(self, unit: &str) -> ShownTime<'_> {
        ShownTime { time: self, unit }
    }
}

// The time of a call and the sum, in the unit of what the calls answer.
#[derive(Clone, Copy)]
pub(super) struct ShownTime<'a> {
    time: CallTime,
    unit: &'a str,
}

impl fmt::Display for ShownTime<'_> {
    fn fmt<W: fmt::Write>(&self, f: &mut fmt::Formatter<W>) -> fmt::Result {
        let CallTime { nanoseconds, sum } = self.time;
        write!(f, " {nanoseconds} ns ({sum} {})", self.unit)
    }
}

// The time of so many calls, numbered from 0, which answer how many they did of something; or the first refusal.
pub(super) fn timed<F: FnMut(u32) -> Result<usize, Refusal>>(
    rt: &impl Clock,
    calls: u32,
    call: F,
) -> io::Result<Result<CallTime, Refusal>>
    requires { F.IsAlwaysCallable call }
{
    let start = Instant::now(rt)?;
    let sum = sum_of(calls, call);
    let spent = start.elapsed(rt)?.as_nanos();
    let nanoseconds = spent / u128::from(calls.max(1));
    Ok(sum.map(|sum| CallTime { nanoseconds, sum }))
}

fn sum_of<F: FnMut(u32) -> Result<usize, Refusal>>(
    calls: u32,
    mut call: F,
) -> Result<usize, Refusal>
    requires { F.IsAlwaysCallable call }
{
    let mut sum = 0usize;
    for number in 0..calls {
        sum = sum.wrapping_add(call(number)?);
    }
    Ok(sum)
}
