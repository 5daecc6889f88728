// Document 02, 3/13: a row of letters in one frame. "A frame of kind 04 shall carry a count from 1 to 32 and that many letters. Its answer is the frame,
// then each press's number, then anchor, width and period. The state and numbers must equal those of the same presses sent singly. Refusals: 22 for a
// wrong count or letter, before any press is tried."
use crate::run::run_case;
use std::io;

// "Case S, whole", its letters in one frame: M starts the tone system at anchor 69, U raises the anchor twice, to 71 (47), and X is bound to nothing (21,
// 15). Key 71 stands where it stands when they are sent singly. A row of one letter raises it again. Then bad rows: count 0; 33 and one letter; two and one
// letter; a letter that is none; two and three letters. None of them presses anything, and the state is dumped last.
fn run_case_s_in_a_row(rt: &impl Print) -> io::Result<()> {
    let text = b"INTERVAL Octave = 2 : 1 Fifth = 3 : 2 TONE a = 440 e = a + Fifth \
        TONESYSTEM Two = 69 [ a, e ] Octave RETUNING Up = @ + 1 [ ] LOGIC L KEY M = Two [ KEY U -> Up ]";
    let frames =
        b"0104044D555558 020247 01040155 010400 0104214D 01040255 0104025561 010402555555 020300";
    run_case(rt, b"case S in a row", text, frames)
}

// A press that is refused does not end the row: L becomes active though its start is refused (10, 0A), and U raises the anchor, twice.
fn run_refused_in_a_row(rt: &impl Print) -> io::Result<()> {
    let text = b"RETUNING Far = 200 [ ] Up = @ + 1 [ ] LOGIC L KEY L = Far [ KEY U -> Up ]";
    run_case(rt, b"refused in a row", text, b"0104044C554C55")
}

// The longest row, and one letter more. From anchor 60, L active and U 32 times: 92 (5C). Then bad rows: 33 letters; 32 and a digit behind them; 32 and a
// letter behind them; 31 counted, and 32 letters. U 32 times again, from house 2: 124 (7C).
fn run_longest_row(rt: &impl Print) -> io::Result<()> {
    let text = b"RETUNING Up = @ + 1 [ ] LOGIC L KEY L = [ KEY U -> Up ]";
    let frames = b"01014C \
        0104205555555555555555555555555555555555555555555555555555555555555555 \
        010421555555555555555555555555555555555555555555555555555555555555555555 \
        01042055555555555555555555555555555555555555555555555555555555555555555 \
        010420555555555555555555555555555555555555555555555555555555555555555555 \
        02041F5555555555555555555555555555555555555555555555555555555555555555 \
        0204205555555555555555555555555555555555555555555555555555555555555555";
    run_case(rt, b"rows of 32 and 33", text, frames)
}

// Every number that a press can have, in one row of house 2: 25 (19) at the start of L, which is active then; U; F 10 (0A); U; O 11 (0B); P 12 (0C); S 14
// (0E); X 21 (15); M, which mutes the first two positions; and U 13 (0D), since that end is silent now. The anchor is 62 (3E).
fn run_all_numbers(rt: &impl Print) -> io::Result<()> {
    let text =
        b"INTERVAL o = 2 : 1 RETUNING W ( n ) = [ << @ / n >> ] Up = @ + 1 [ ] Far = 200 [ ] \
        Wide = [ << 61 >> ] Long = [ ] 11 o Sharp = [ @ + 999 o ] Mute = [ ,] \
        LOGIC L KEY L = W ( 0 ) [ KEY U -> Up KEY F -> Far KEY O -> Wide KEY P -> Long KEY S -> Sharp KEY M -> Mute ]";
    run_case(
        rt,
        b"all numbers in a row",
        text,
        b"02040A4C5546554F5053584D55 010300",
    )
}

// Logics change within a row: U is bound to nothing (21, 15), and once A is active it raises the anchor, to 61; N makes B active, and U lowers the anchor, to
// 56 (38). House 2 goes on from there: twice 5 lower, to 46 (2E), and N is bound to nothing; then 5 lower, A, and 1 higher, to 42 (2A).
fn run_logics_in_a_row(rt: &impl Print) -> io::Result<()> {
    let text =
        b"RETUNING Up = @ + 1 [ ] Down = @ - 5 [ ] LOGIC A KEY A = [ KEY U -> Up KEY N -> B ] \
        B KEY B = [ KEY U -> Down ]";
    run_case(
        rt,
        b"logics in a row",
        text,
        b"0104065541554E5542 02040355554E 020403554155",
    )
}

// With 5/13: a row starts no analysis and holds no key. Key 60 makes up { 0 }: L is active, and the anchor 61 (3D). Two presses raise it to 63 (3F); key 60 is
// held still (17, 11), at position 9, and key 63 makes up { 0, 9 } with it: 64 (40). A row of one letter: 65 (41). Key 60 goes up, and nothing matches.
fn run_row_with_keys_held(rt: &impl Print) -> io::Result<()> {
    let text =
        b"HARMONY C = { 0 } D = { 0, 9 } RETUNING Up = @ + 1 [ ] LOGIC L C = Up [ KEY U -> Up D -> Up ]";
    run_case(
        rt,
        b"row with keys held",
        text,
        b"01053C 0104025555 01053C 02053F 02040155 01063C",
    )
}

pub fn run_letter_rows(rt: &impl Print) -> io::Result<()> {
    run_case_s_in_a_row(rt)?;
    run_refused_in_a_row(rt)?;
    run_longest_row(rt)?;
    run_all_numbers(rt)?;
    run_logics_in_a_row(rt)?;
    run_row_with_keys_held(rt)
}
