// Document 02, 2/13: a scale whose first key is muted. "Where the key at the other end falls on position 0, the distance shall be q times the period,
// muted or not. Anchor moves then shift by that, width changes take it as the new period." The key at the other end is b or a+v.
use crate::run::run_case;
use std::io;

// A pentatonic scale on the start: positions 1, 3, 6, 8 and 10 sound. `@ [ ]` and width `@` are taken, by no period and by one. An octave up: anchor
// 72 (48), key 60 is silent (20, 14), key 61 stays at 6,100,000 (005D1420). An octave down again. Key 61 is at position 1, so `@ + 1` gets 13 (0D),
// though it sounds. Doubled: width 24 (18), period 2,400,000 (00249F00). Key 62 is at 2 and key 73 at 13: `@ + 2` and width 13 get 13.
fn run_pentatonic(rt: &impl Print) -> io::Result<()> {
    let text =
        b"INTERVAL O = 2 : 1 RETUNING Pent = [ , @, , @, , , @, , @, , @, ] U12 = @ + 12 [ ] U2 = @ + 2 [ ] U1 = @ + 1 [ ] \
        D12 = @ - 12 [ ] W24 = [ << @ * 2 >> ] W = [ << @ >> ] W13 = [ << 13 >> ] K = @ [ ] \
        LOGIC L KEY L = Pent [ KEY A -> U12 KEY B -> U1 KEY C -> D12 KEY D -> W24 KEY E -> W KEY F -> W13 KEY G -> K KEY H -> U2 ]";
    run_case(
        rt,
        b"first key muted",
        text,
        b"01014C 010147 010145 010141 01023C 01023D 010143 010142 010144 010148 010146",
    )
}

// Nine octaves are 10,800,000 (00A4CB80). Twice that is no period: 12 (0C).
fn run_nine_octaves(rt: &impl Print) -> io::Result<()> {
    let text = b"INTERVAL T = 2 : 1 RETUNING P = [ ] 9 T M = [ , ] W = [ << @ * 2 >> ] \
        LOGIC L KEY L = P [ KEY A -> M KEY B -> W ]";
    run_case(
        rt,
        b"first key muted, nine octaves",
        text,
        b"01014C 010141 010142",
    )
}

// With 5/13: key 60 is held, and the harmony { 0 } carries the scale up to 72 (48).
fn run_muted_chord(rt: &impl Print) -> io::Result<()> {
    let text = b"HARMONY C = { 0 } RETUNING Mute = [ , ] Up = @ + 12 [ ] \
        LOGIC M KEY M = Mute [ ] L C = Up [ ]";
    run_case(
        rt,
        b"first key muted, by a chord",
        text,
        b"01014D 01053C 01063C",
    )
}

// "13 narrows to r other than 0 with either end silent": here position 0 sounds and position 1 is muted. Key 61 and key 73 are at 1, silent: 13 (0D).
// Key 62 is at 2 and sounds: anchor 62 (3E).
fn run_other_end_silent(rt: &impl Print) -> io::Result<()> {
    let text = b"RETUNING M = [ @, ] A = @ + 1 [ ] B = [ << 13 >> ] C = @ + 2 [ ] \
        LOGIC L KEY L = M [ KEY A -> A KEY B -> B KEY C -> C ]";
    run_case(
        rt,
        b"other end silent",
        text,
        b"01014C 010141 010142 010143",
    )
}

// "the order stays": 10, 13, 14 and 11, 13, 14, 12. Width 2, a period of ten octaves (00B71B00), position 0 muted, position 1 at 6,100,000. Anchor 128
// is none (10, 0A), width 61 is none (11, 0B). Eight periods up position 1 would stand at 102,100,000, past its range: 14 (0E). Width 4 would have
// twice the period: 12 (0C). Seven periods up, at anchor 74 (4A), key 75 stands at 90,100,000, where no instrument has it (15, 0F; 6/13); there width 4
// would have key 77 among its tones, at 102,100,000, and 14 comes before 12.
fn run_order_of_checks(rt: &impl Print) -> io::Result<()> {
    let text =
        b"INTERVAL T = 2 : 1 RETUNING W2 = [ << 2 >> ] P = [ ] 10 T M = [ , @ ] A = 128 [ ] B = [ << 61 >> ] \
        C = @ + 16 [ ] D = @ + 14 [ ] E = [ << 4 >> ] LOGIC L KEY L = W2 [ KEY P -> P KEY M -> M KEY A -> A KEY B -> B \
        KEY C -> C KEY D -> D KEY E -> E ]";
    run_case(
        rt,
        b"first key muted, checks in order",
        text,
        b"01014C 010150 01014D 010141 010142 010143 010145 010144 01024B 010145",
    )
}

pub fn run_first_muted(rt: &impl Print) -> io::Result<()> {
    run_pentatonic(rt)?;
    run_nine_octaves(rt)?;
    run_muted_chord(rt)?;
    run_other_end_silent(rt)?;
    run_order_of_checks(rt)
}
