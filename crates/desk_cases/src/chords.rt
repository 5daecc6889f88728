// Document 02, 5/13: chords as triggers. A key's frame of kind 05 or 06 is answered like a letter. Position r of a held key is counted from the
// anchor, within the width: at the start key 60 (3C) is at 0, key 63 (3F) at 3, key 64 (40) at 4, key 67 (43) at 7.
use crate::run::run_case;
use std::io;

// "A harmony matches when exactly its numbers are held, starred ones apart": key 60, in either house, is only 0; with key 64 the 0 and the 4 are
// held, and the anchor goes up to 67 (43). "17 for a key already held in that house" (11), "18 for one not held" (12): key 64 is held in house 1
// alone. Without it key 60 is left, seven below the anchor and so at 5, which is no chord.
fn run_chord(rt: &impl Print) -> io::Result<()> {
    let text = b"HARMONY C = { 0, 4, *7 } RETUNING Up = @ + 7 [ ] LOGIC L C = Up [ ]";
    run_case(
        rt,
        b"chord",
        text,
        b"01053C 02053C 010540 010540 020640 010640",
    )
}

// "Held keys of both houses are projected by r": 0, then 0 and 7, and with key 64 all three of the chord, the 7 from house 2. Width 24 (18) has
// the period pitch(84) - t(0) = 2,400,000 (00249F00).
fn run_chord_of_both_houses(rt: &impl Print) -> io::Result<()> {
    let text = b"HARMONY C = { 0, 4, *7 } RETUNING W = [ << 24 >> ] LOGIC L C = W [ ]";
    run_case(rt, b"chord of both houses", text, b"01053C 020543 010540")
}

// "triggers are tried in declared order, logics first": L is active, but key 60 finds logic M before the order A of L. M's start is refused (10,
// 0A), and "a call refused leaves the key as changed": key 60 can go up. With no key held the order B of M matches: anchor 62 (3E). Then key 63 is
// at 1, in no harmony; it goes up, and B matches again: anchor 64 (40).
fn run_logics_first(rt: &impl Print) -> io::Result<()> {
    let text = b"HARMONY A = { 0 } B = { *0, *3 } N = { 59 } \
        RETUNING Far = 200 [ ] One = @ + 1 [ ] Two = @ + 2 [ ] \
        LOGIC L KEY L = [ N -> Far B -> One A -> Two ] M A = Far [ B -> Two ]";
    run_case(
        rt,
        b"chords of logics first",
        text,
        b"01014C 01053C 01063C 01053F 01063F",
    )
}

// The orders of the active logic "in declared order": L has no start. With key 60 both B and A match, and B is the first: anchor 61 (3D). Then key
// 60 is at 11 (eleven above key 49); key 61, which is at 0 now, makes no chord with it. Without key 60 B matches again: 62 (3E).
fn run_first_order(rt: &impl Print) -> io::Result<()> {
    let text = b"HARMONY A = { 0 } B = { *0, *3 } RETUNING One = @ + 1 [ ] Two = @ + 2 [ ] \
        LOGIC L KEY L = [ B -> One A -> Two ]";
    run_case(
        rt,
        b"chords of orders",
        text,
        b"01014C 01053C 02053D 01063C",
    )
}

// "a star before a number means that it may be held or not", and where all have one no key need be held: key 64 is not in e, and without it e
// matches, anchor 61 (3D). House 2 holds no key 63 (18, 12). A key above 7F is a bad frame.
fn run_no_key_held(rt: &impl Print) -> io::Result<()> {
    let text = b"HARMONIE e = { *0 } RETUNING One = @ + 1 [ ] LOGIC L e = One [ ]";
    run_case(
        rt,
        b"chord of no keys",
        text,
        b"010540 010640 02063F 020580 020680",
    )
}

// "one naming a number at or above the width, starred or not, never matches": s has 12, so key 60 matches it at width 13 (0D) alone, whose period
// is pitch(73) - t(0) = 1,300,000 (0013D620). The anchor goes up to 61 (3D).
fn run_beyond_width(rt: &impl Print) -> io::Result<()> {
    let text = b"HARMONY s = { *12, 0 } RETUNING W = [ << 13 >> ] U = @ + 1 [ ] \
        LOGIC a KEY A = [ s -> U ] b KEY B = W [ s -> U ]";
    run_case(
        rt,
        b"chord beyond the width",
        text,
        b"010141 01053C 01063C 010142 01053C",
    )
}

// "3 also for empty braces or a number named twice": at the closing brace, byte 14 (0E), and at the second number, bytes 20 (14) and 21 (15).
fn run_bad_braces(rt: &impl Print) -> io::Result<()> {
    run_case(rt, b"empty braces", b"HARMONY C = { }", b"")?;
    run_case(rt, b"number named twice", b"HARMONY C = { 0, 4, 0 }", b"")?;
    run_case(
        rt,
        b"named twice, one with a star",
        b"HARMONY C = { 0, *4, 4 }",
        b"",
    )
}

// "key numbers from 0 to 59": 4 at the number, bytes 14 (0E) and 17 (11). The second has a point, which goes before that it is named twice.
fn run_bad_keys(rt: &impl Print) -> io::Result<()> {
    run_case(rt, b"key number 60", b"HARMONY C = { 60 }", b"")?;
    run_case(
        rt,
        b"key number with a point",
        b"HARMONY C = { 0, 0.0 }",
        b"",
    )
}

// "5 and 6 for harmony names": the second C, byte 21 (15), and a trigger that is not declared, byte 8. A logic without a trigger gets 3 at the
// equals sign, byte 26 (1A).
fn run_bad_names(rt: &impl Print) -> io::Result<()> {
    run_case(
        rt,
        b"harmony declared twice",
        b"HARMONY C = { 0, 4 } C = { 1 }",
        b"",
    )?;
    run_case(
        rt,
        b"harmony not declared",
        b"LOGIC L C = x [ D -> y ]",
        b"",
    )?;
    run_case(rt, b"no trigger", b"HARMONY C = { 0 } LOGIC L = [ ]", b"")
}

// "at most 64 harmonies of at most 60 keys": all sixty key numbers, then one more with a star, 9 at the star, byte 244 (F4); without a star it is
// named twice, 3 there. The name of a 65th harmony, bm, is byte 430 (1AE).
fn run_too_many(rt: &impl Print) -> io::Result<()> {
    let starred =
        b"HARMONY C = { 0, 1, 2, 3, 4, 5, 6, 7, 8, 9, 10, 11, 12, 13, 14, 15, 16, 17, 18, 19, 20, 21, 22, 23, 24, 25, 26, 27, 28, \
        29, 30, 31, 32, 33, 34, 35, 36, 37, 38, 39, 40, 41, 42, 43, 44, 45, 46, 47, 48, 49, 50, 51, 52, 53, 54, 55, 56, 57, 58, \
        59, *0 }";
    let twice =
        b"HARMONY C = { 0, 1, 2, 3, 4, 5, 6, 7, 8, 9, 10, 11, 12, 13, 14, 15, 16, 17, 18, 19, 20, 21, 22, 23, 24, 25, 26, 27, 28, \
        29, 30, 31, 32, 33, 34, 35, 36, 37, 38, 39, 40, 41, 42, 43, 44, 45, 46, 47, 48, 49, 50, 51, 52, 53, 54, 55, 56, 57, 58, \
        59, 0 }";
    let harmonies =
        b"HARMONY a={0} b={0} c={0} d={0} e={0} f={0} g={0} h={0} i={0} j={0} k={0} l={0} m={0} n={0} o={0} p={0} q={0} r={0} \
        s={0} t={0} u={0} v={0} w={0} x={0} y={0} z={0} aa={0} ab={0} ac={0} ad={0} ae={0} af={0} ag={0} ah={0} ai={0} aj={0} \
        ak={0} al={0} am={0} an={0} ao={0} ap={0} aq={0} ar={0} as={0} at={0} au={0} av={0} aw={0} ax={0} ay={0} az={0} ba={0} \
        bb={0} bc={0} bd={0} be={0} bf={0} bg={0} bh={0} bi={0} bj={0} bk={0} bl={0} bm={0}";
    run_case(rt, b"61 keys, the last with a star", starred, b"")?;
    run_case(rt, b"61 keys", twice, b"")?;
    run_case(rt, b"65 harmonies", harmonies, b"")
}

pub fn run_chords(rt: &impl Print) -> io::Result<()> {
    run_chord(rt)?;
    run_chord_of_both_houses(rt)?;
    run_logics_first(rt)?;
    run_first_order(rt)?;
    run_no_key_held(rt)?;
    run_beyond_width(rt)?;
    run_bad_braces(rt)?;
    run_bad_keys(rt)?;
    run_bad_names(rt)?;
    run_too_many(rt)
}
