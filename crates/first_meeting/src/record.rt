// The printed record of a group of boxes.
ghost use Rattle.std.specs.Prelude.{◌≡◌, ℕ, ◌<◌, List, ◌++◌, length, IfOk, string_bytes, OnOk};
ghost use Rattle.congruence.specs.Clocks.{periods};
ghost use Rattle.first_meeting.specs.Records.{box_line, box_lines, pair_line, cycle_line, tick_line, Writes, PairsOf, Pairs, Record};

use congruence::{Clock, NoCommonTick, lcm_of, meets};
use std::alloc::{AllocError, Global};

// Each of these says what its line adds to the text: a name for that would be no plainer.
fn write_box(out: &mut String, n: usize, clock: Clock) -> Result<(), AllocError>
    ensures { OnOk result (string_bytes out.new ≡ string_bytes out.old ++ box_line n clock) }
{
    let Clock { period, wait } = clock;
    writeln!(out, "box {n}: period {period}, wait {wait}")
}

fn write_pair(out: &mut String, m: usize, n: usize) -> Result<(), AllocError>
    ensures { OnOk result (string_bytes out.new ≡ string_bytes out.old ++ pair_line m n) }
{
    writeln!(out, "boxes {m} and {n} never meet")
}

fn write_cycle(out: &mut String, cycle: Option<u64>) -> Result<(), AllocError>
    ensures { OnOk result (string_bytes out.new ≡ string_bytes out.old ++ cycle_line cycle) }
{
    match cycle {
        Some(m) => writeln!(out, "lcm of the periods: {m}"),
        None => writeln!(out, "lcm of the periods: above 10^18"),
    }
}

fn write_tick(out: &mut String, first: Result<Option<u64>, NoCommonTick>) -> Result<(), AllocError>
    ensures { OnOk result (string_bytes out.new ≡ string_bytes out.old ++ tick_line first) }
{
    match first {
        Ok(Some(tick)) => writeln!(out, "first common tick: {tick}"),
        Ok(None) => writeln!(out, "first common tick: -"),
        Err(_) => writeln!(out, "first common tick: never"),
    }
}

fn write_boxes(out: &mut String, clocks: &[Clock]) -> Result<(), AllocError>
    ensures { OnOk result (string_bytes out.new ≡ string_bytes out.old ++ box_lines 1 clocks.now) }
{
    for (place, clock) in clocks.iter().enumerate() {
        write_box(out, place + 1, *clock)?;
    }
    Ok(())
}

// The lines of the earlier boxes that never meet the next one.
fn write_pairs(out: &mut String, earlier: &[Clock], clock: Clock) -> Result<(), AllocError>
    ensures { OnOk result (Writes (PairsOf earlier.now clock (length earlier.now))
        (string_bytes out.old) (string_bytes out.new)) }
{
    for (place, other) in earlier.iter().enumerate() {
        if !meets(*other, clock) {
            write_pair(out, place + 1, earlier.len() + 1)?;
        }
    }
    Ok(())
}

fn write_all_pairs(out: &mut String, clocks: &[Clock]) -> Result<(), AllocError>
    ensures { OnOk result (Writes (Pairs clocks.now (length clocks.now))
        (string_bytes out.old) (string_bytes out.new)) }
{
    for (place, clock) in clocks.iter().enumerate() {
        write_pairs(out, &clocks[..place], *clock)?;
    }
    Ok(())
}

fn periods_of(heap: Global, clocks: &[Clock]) -> Result<Vec<u64>, AllocError>
    ensures { IfOk result (λ v. v.items ≡ periods clocks.now) }
{
    clocks
        .iter()
        .map(|clock| u64::from(clock.period))
        .collect(heap)
}

// The record of a group, with what is told of its first common tick.
pub fn meeting_record(
    heap: Global,
    clocks: &[Clock],
    first: Result<Option<u64>, NoCommonTick>,
) -> Result<String, AllocError>
    ensures { IfOk result (λ s. Record clocks.now first (string_bytes s)) }
{
    let mut out = String::new(heap);
    write_boxes(&mut out, clocks)?;
    write_all_pairs(&mut out, clocks)?;
    write_cycle(&mut out, lcm_of(periods_of(heap, clocks)?.as_slice()))?;
    write_tick(&mut out, first)?;
    Ok(out)
}
