// A test program: document 01, "Small sums to try", "Run and compared", and some rules of letters and frames. The comment before a case works out
// the answers that `stdout` has. An answer repeats the frame, then comes the number, then for a letter anchor, width and period, for a key its
// pitch, for 03 anchor, width, period and each tone. "Pitch and period are four bytes, high first".
// The start is anchor 60 (3C), width 12 (0C), period 1,200,000 (00124F80), t(0) = 6,000,000 (005B8D80) and each further tone 100,000 (000186A0)
// above the one before. From document 01's list: 2 : 1 is 1,200,000, 1200 ROOT 2 is 1,000, and 440 stands at 6,900,000 (00694920).
#![tactic(auto)]

mod chords;
mod first_muted;
mod letter_rows;
mod run;
mod unplayable;
mod with_placeholders;

use chords::run_chords;
use first_muted::run_first_muted;
use letter_rows::run_letter_rows;
use run::run_case;
use std::io;
use unplayable::run_unplayable;
use with_placeholders::run_with_placeholders;

// "text: 0 to 32,768 bytes"
const LONGEST_TEXT: usize = 32_768;

// "Case S, whole": text, frames and answers are document 01's.
fn run_case_s(rt: &impl Print) -> io::Result<()> {
    let text = b"INTERVAL Octave = 2 : 1 Fifth = 3 : 2 TONE a = 440 e = a + Fifth \
        TONESYSTEM Two = 69 [ a, e ] Octave RETUNING Up = @ + 1 [ ] LOGIC L KEY M = Two [ KEY U -> Up ]";
    let frames = b"01014D 010245 010155 020155 020247 010158 0201";
    run_case(rt, b"case S", text, frames)
}

// "width 1 with `@/2` gives 11". O: t(0) stays, and the period is pitch(61) - t(0) = 100,000, so that key 61 stands a period above t(0), at
// 6,100,000 (005D1420). H: 1 / 2 is 0, which is no width (11, 0B), and nothing changes.
fn run_half_of_one(rt: &impl Print) -> io::Result<()> {
    let text =
        b"RETUNING One = [ << 1 >> ] Half = [ << @ / 2 >> ] LOGIC O KEY O = One [ ] H KEY H = Half [ ]";
    run_case(
        rt,
        b"width 1 with @/2",
        text,
        b"01014F 01023D 010148 010300",
    )
}

// "from the start, width `@*5` gives 60 with period 6,000,000 and width 61 gives 11": 60 is 3C, 6,000,000 is 005B8D80.
fn run_wide(rt: &impl Print) -> io::Result<()> {
    let text =
        b"RETUNING Five = [ << @ * 5 >> ] Wide = [ << 61 >> ] LOGIC F KEY F = Five [ ] W KEY W = Wide [ ]";
    run_case(rt, b"width 61, width @*5", text, b"010157 010146")
}

// "period `@ - Octave` from the start is taken at 0 and the second time gives 12" (0C). In between key 72, a period of 0 above t(0), stands at t(0).
fn run_octave_less(rt: &impl Print) -> io::Result<()> {
    let text = b"INTERVAL Octave = 2 : 1 RETUNING Less = [ ] @ - Octave LOGIC L KEY L = Less [ ]";
    run_case(rt, b"period @ - Octave", text, b"01014C 010248 01014C")
}

// "ten octaves are taken, eleven give 12" (0C): 12,000,000 is 00B71B00.
fn run_ten_octaves(rt: &impl Print) -> io::Result<()> {
    let text = b"INTERVAL Octave = 2 : 1 RETUNING Ten = [ ] 10 Octave Eleven = [ ] 11 Octave \
        LOGIC T KEY T = Ten [ ] E KEY E = Eleven [ ]";
    run_case(rt, b"ten octaves, eleven octaves", text, b"010154 010145")
}

// "a text of 32,769 bytes gives 1", at place 0; one of 32,768 is taken, and binds no letter (21, 15).
fn run_blanks(rt: &impl Print) -> io::Result<()> {
    let blanks = [b' '; LONGEST_TEXT + 1];
    run_case(rt, b"32,768 blanks", &blanks[..LONGEST_TEXT], b"01014D")?;
    run_case(rt, b"32,769 blanks", &blanks, b"01014D")
}

// "A refused text gives one line, `EE`, number, place in four bytes, and no more": 6 at the b, which is byte 9.
fn run_refused(rt: &impl Print) -> io::Result<()> {
    run_case(rt, b"name not declared", b"TONE a = b", b"01014D")
}

// Both houses have one state: house 1 raises t(0) by 50,000, and house 2 finds key 60 at 6,050,000 (005C50D0) and key 72, a period higher, at
// 7,250,000 (006EA050).
fn run_two_houses(rt: &impl Print) -> io::Result<()> {
    let text =
        b"INTERVAL Cent = 1200 ROOT 2 RETUNING Sharp = [ @ + 50 Cent ] LOGIC S KEY S = Sharp [ ]";
    run_case(rt, b"two houses", text, b"02023C 010153 02023C 020248")
}

// "A logic becomes active even if its start isn't taken": U is bound to nothing (21, 15) before L, whose start is refused (11, 0B), and an order of
// the active logic after it: anchor 61 (3D).
fn run_start_refused(rt: &impl Print) -> io::Result<()> {
    let text = b"RETUNING Wide = [ << 61 >> ] Up = @ + 1 [ ] LOGIC L KEY L = Wide [ KEY U -> Up ]";
    run_case(rt, b"start not taken", text, b"010155 01014C 010155")
}

// "logics are tried in declared order; the first with this letter becomes active and its start is called, and the search ends. Else the active
// logic's orders": the order B of logic A is never reached. A has no start (0); then B is logic B, which goes down to anchor 59 (3B), not up
// to 61.
fn run_order_behind_logic(rt: &impl Print) -> io::Result<()> {
    let text =
        b"RETUNING Up = @ + 1 [ ] Down = @ - 1 [ ] LOGIC A KEY A = [ KEY B -> Up ] B KEY B = Down [ ]";
    run_case(rt, b"order behind a logic", text, b"010141 010142")
}

// "a called logic becomes active, its start called": the order N of logic A calls logic B, whose start goes up to anchor 61 (3D), and whose order D
// then goes down to 60.
fn run_called_logic(rt: &impl Print) -> io::Result<()> {
    let text = b"RETUNING Up = @ + 1 [ ] Down = @ - 1 [ ] \
        LOGIC A KEY A = [ KEY N -> B ] B KEY B = Up [ KEY D -> Down ]";
    run_case(rt, b"called logic", text, b"010141 01014E 010144")
}

// "Nothing means a muted position": key 69 (45) has the tone a, key 70 none, and so on up and down. Keys 70 and 68 are silent (20, 14), with
// 80000000; key 71 is an octave above key 69, at 8,100,000 (007B98A0). The dump has the muted tone as 80000000 too.
fn run_muted(rt: &impl Print) -> io::Result<()> {
    let text =
        b"INTERVAL Octave = 2 : 1 TONE a = 440 TONESYSTEM Gap = 69 [ a, ] Octave LOGIC G KEY G = Gap [ ]";
    run_case(
        rt,
        b"muted position",
        text,
        b"010147 010245 010246 010244 010247 020300",
    )
}

// "Anything else is a bad frame, answered `FF16`": small letters in two frames, house 03, kind 04, letters 40 and 5B, key 80, 03 with 01, five
// digits, seven, none, and a sign. None of them changes the start, whose twelve tones are dumped last.
fn run_bad_frames(rt: &impl Print) -> io::Result<()> {
    let frames =
        b"01014d 01023c 030300 010400 010140 01015B 010280 010301 01030 0103000  -10300 010300";
    run_case(rt, b"bad frames", b"", frames)
}

fn main(rt: HostRuntime) -> io::Result<()> {
    run_case_s(&rt)?;
    run_half_of_one(&rt)?;
    run_wide(&rt)?;
    run_octave_less(&rt)?;
    run_ten_octaves(&rt)?;
    run_blanks(&rt)?;
    run_refused(&rt)?;
    run_two_houses(&rt)?;
    run_start_refused(&rt)?;
    run_order_behind_logic(&rt)?;
    run_called_logic(&rt)?;
    run_muted(&rt)?;
    run_bad_frames(&rt)?;
    run_chords(&rt)?;
    run_first_muted(&rt)?;
    run_unplayable(&rt)?;
    run_with_placeholders(&rt)?;
    run_letter_rows(&rt)
}
