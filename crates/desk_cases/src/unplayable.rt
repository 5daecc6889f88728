// Document 02, 6/13: a pitch that no instrument has. "A key answer shall give a pitch only from 0 to 12,799,999. Below or above it, the key counts as
// unplayable." "15 after 20, pitch bytes 80000000, state unchanged." 15 is 0F.
use crate::run::run_case;
use std::io;

// Ten octaves are 12,000,000 (00B71B00). Key 60 stays at 6,000,000; key 72, a period higher, would be at 18,000,000: 15. Key 71 is the highest of the scale,
// at 7,100,000 (006C5660). Key 48, a period lower, would be at -6,000,000: 15. A mutes the first position, and key 72 is silent: 20 (14).
fn run_past_any_pipe(rt: &impl Print) -> io::Result<()> {
    let text =
        b"INTERVAL O = 2 : 1 RETUNING Ten = [ ] 10 O M = [ ,] LOGIC L KEY L = Ten [ KEY A -> M ]";
    run_case(
        rt,
        b"past any pipe",
        text,
        b"01014C 01023C 010248 010247 010230 010141 010248",
    )
}

// h is 100,000 and m is 1. Key 60 comes to 0, key 61 to -1, key 62 to 12,799,999 (00C34FFF) and key 63 to 12,800,000 (00C35000): the first and the third
// are given, the others are one past an end. 03 has all tones as they are, -1 (FFFFFFFF) and 12,800,000 among them.
fn run_both_limits(rt: &impl Print) -> io::Result<()> {
    let text = b"INTERVAL h = 12 ROOT 2 m = 429496 : 429495.8759 \
        RETUNING Z = [ @ - 60 h, @ - 61 h - m, @ + 66 h - m, @ + 65 h ] LOGIC L KEY L = Z [ ]";
    run_case(
        rt,
        b"both limits",
        text,
        b"01014C 01023C 01023D 01023E 01023F 010300",
    )
}

// "Anchor and width retunings keep using the unlimited pitch." Nine octaves are 10,800,000 (00A4CB80), and key 73 stands at 16,900,000: 15. The anchor goes
// there (49), and key 73 is where it was. Key 61, a period lower, is at 6,100,000 (005D1420), and key 60, two periods and eleven positions off, at
// -3,600,000. Width 13: key 86 is at 27,800,000, the new period 10,900,000 (00A65220).
fn run_far_ends(rt: &impl Print) -> io::Result<()> {
    let text = b"INTERVAL O = 2 : 1 RETUNING Nine = [ ] 9 O W = [ << 13 >> ] A = @ + 13 [ ] \
        LOGIC L KEY L = Nine [ KEY W -> W KEY A -> A ]";
    run_case(
        rt,
        b"unplayable ends",
        text,
        b"01014C 010249 010141 010249 01023D 01023C 010157",
    )
}

// With 5/13: key 72 is unplayable, and held it makes up the harmony { 0 }: anchor 61 (3D).
fn run_unplayable_chord(rt: &impl Print) -> io::Result<()> {
    let text = b"INTERVAL O = 2 : 1 HARMONY C = { 0 } RETUNING Ten = [ ] 10 O Up = @ + 1 [ ] \
        LOGIC T KEY T = Ten [ ] L C = Up [ ]";
    run_case(
        rt,
        b"unplayable key in a chord",
        text,
        b"010154 010248 010548",
    )
}

// "15 after 20", which comes after 22: keys beyond the keyboard's end, unplayable from either house, and silent.
fn run_in_order(rt: &impl Print) -> io::Result<()> {
    let text =
        b"INTERVAL O = 2 : 1 RETUNING Ten = [ ] 10 O M = [ ,] LOGIC L KEY L = Ten [ KEY A -> M ]";
    run_case(
        rt,
        b"22, 20, 15",
        text,
        b"01014C 020280 020248 010248 020141 020248 020300",
    )
}

pub fn run_unplayable(rt: &impl Print) -> io::Result<()> {
    run_past_any_pipe(rt)?;
    run_both_limits(rt)?;
    run_far_ends(rt)?;
    run_unplayable_chord(rt)?;
    run_in_order(rt)
}
