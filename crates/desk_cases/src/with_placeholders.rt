// Document 02, 1/13: retunings with placeholders. "So called it must act as the same retuning with those numbers written in". 24 is 18, 25 is 19. Texts
// that are refused have their number and place, counted from 0.
use crate::run::run_case;
use std::io;

// The handbook's `Anker_neu`: L's start hands over 62 (3E), C hands over 60 (3C). A goes up by 3, from 62 to 65 (41); 9,999 above that is no anchor:
// 10 (0A).
fn run_new_anchor(rt: &impl Print) -> io::Result<()> {
    let text = b"RETUNING Anker_neu ( x ) = x [ ] Up ( n ) = @ + n [ ] \
        LOGIC L KEY L = Anker_neu ( 62 ) [ KEY A -> Up ( 3 ) KEY B -> Up ( 9999 ) KEY C -> Anker_neu ( 60 ) ]";
    run_case(rt, b"new anchor", text, b"01014C 010141 010142 010143")
}

// "at the call 25 .. for division by zero, state unchanged, which as with 10 to 14 speaks of the four parts: a logic whose start gives it becomes
// active". A is bound to nothing (21, 15) before L, whose start hands a zero to `/`: 25. Then A is an order of the active logic: half of 12 is 6, with the
// period pitch(66) - t(0) = 600,000 (000927C0). Three times that is 18 (12), with 1,800,000 (001B7740). The width 0 is none, 11 (0B). D divides by zero again.
fn run_division_by_zero(rt: &impl Print) -> io::Result<()> {
    let text =
        b"RETUNING W ( a, b ) = [ << @ / b >> ] T ( a ) = [ << @ * a >> ] S ( a ) = [ << a >> ] \
        LOGIC L KEY L = W ( 7, 0 ) [ KEY A -> W ( 0, 2 ) KEY B -> T ( 3 ) KEY C -> S ( 0 ) KEY D -> W ( 5, 0 ) ]";
    run_case(
        rt,
        b"division by zero",
        text,
        b"010141 01014C 010141 010142 010143 010144",
    )
}

// "after any retuning's name": a period and tones have no n, and their calls give the numbers all the same. Two octaves are 2,400,000 (00249F00). T mutes
// key 60 (20, 14) and brings key 61 an octave up, to 7,300,000 (006F63A0).
fn run_of_no_use(rt: &impl Print) -> io::Result<()> {
    let text = b"INTERVAL O = 2 : 1 RETUNING P ( a ) = [ ] O + O T ( a, b, c, d ) = [ , @ + O ] \
        LOGIC L KEY L = P ( 0 ) [ KEY A -> T ( 1, 2, 3, 4 ) ]";
    run_case(
        rt,
        b"placeholders of no use",
        text,
        b"01014C 010141 01023D 01023C",
    )
}

// A placeholder may have the name of its retuning, and of a tone: #A is 10, and ten below 60 is 50 (32).
fn run_one_name(rt: &impl Print) -> io::Result<()> {
    let text = b"TONE x = 440 RETUNING x ( X ) = @ - x [ ] LOGIC L KEY L = x ( #A ) [ ]";
    run_case(rt, b"one name for three", text, b"01014C")
}

// "usable where n stands": each form of an anchor and of a width. Anchors 61 (3D), 63 (3F), 60 (3C); widths 6, 8, 4, 20 (14) and 2, each with so many times
// 100,000 as its period: 000927C0, 000C3500, 00061A80, 001E8480, 00030D40.
fn run_each_form(rt: &impl Print) -> io::Result<()> {
    let text =
        b"RETUNING A ( n ) = n [ ] B ( n ) = @ + n [ ] C ( n ) = @ - n [ ] D ( n ) = [ << n >> ] \
        E ( n ) = [ << @ + n >> ] F ( n ) = [ << @ - n >> ] G ( n ) = [ << @ * n >> ] H ( n ) = [ << @ / n >> ] \
        LOGIC L KEY L = [ KEY A -> A ( 61 ) KEY B -> B ( 2 ) KEY C -> C ( 3 ) KEY D -> D ( 6 ) KEY E -> E ( 2 ) \
        KEY F -> F ( 4 ) KEY G -> G ( 5 ) KEY H -> H ( 10 ) ]";
    run_case(
        rt,
        b"each form",
        text,
        b"01014C 010141 010142 010143 010144 010145 010146 010147 010148",
    )
}

// "one to four placeholder names": the fourth gets the fourth number, and so on. From 60 by 4 to 64 (40), by 1 to 65 (41), by 2 to 67 (43), by 3 to 70 (46).
fn run_four(rt: &impl Print) -> io::Result<()> {
    let text = b"RETUNING A ( a, b, c, d ) = @ + a [ ] B ( a, b, c, d ) = @ + b [ ] \
        C ( a, b, c, d ) = @ + c [ ] D ( a, b, c, d ) = @ + d [ ] LOGIC L KEY L = D ( 1, 2, 3, 4 ) \
        [ KEY A -> A ( 1, 2, 3, 4 ) KEY B -> B ( 1, 2, 3, 4 ) KEY C -> C ( 1, 2, 3, 4 ) ]";
    run_case(
        rt,
        b"four names and four numbers",
        text,
        b"01014C 010141 010142 010143",
    )
}

// Inside brackets blanks and comments part symbols, and "capitals count as small": #0F is 15, and the anchor 75 (4B).
fn run_comments(rt: &impl Print) -> io::Result<()> {
    let text =
        b"RETUNING Up(\"how far\"N,\"of no use\"M)=@+n[ ] LOGIC L KEY L = UP(#0F,\"two\"0002)[ ]";
    run_case(rt, b"comments and capitals in brackets", text, b"01014C")
}

// With 5/13: L's start goes up by 2, to 62 (3E), and with key 62, which is at 0 then, once more, to 64 (40). A call that divides by zero leaves "the key as
// changed": it can go up, and after that it is not held (18, 12).
fn run_chords_with_numbers(rt: &impl Print) -> io::Result<()> {
    let up = b"HARMONY C = { 0 } RETUNING Up ( n ) = @ + n [ ] LOGIC L C = Up ( 2 ) [ ]";
    run_case(rt, b"number handed by a chord", up, b"01053C 01063C 02053E")?;
    let over =
        b"HARMONY C = { 0 } RETUNING Over ( n ) = [ << @ / n >> ] LOGIC L C = Over ( 0 ) [ ]";
    run_case(
        rt,
        b"division by zero by a chord",
        over,
        b"01053C 01063C 01063C",
    )
}

// "24 .. for a placeholder not named (without brackets none is)": at the x, byte 13 (0D); at the y, byte 28 (1C); and at b's x, byte 29 (1D), since a
// placeholder is one of its own retuning alone.
fn run_not_named(rt: &impl Print) -> io::Result<()> {
    run_case(
        rt,
        b"not named, without brackets",
        b"RETUNING a = x [ ]",
        b"",
    )?;
    run_case(
        rt,
        b"not named, another is",
        b"RETUNING a ( x ) = [ << @ / y >> ]",
        b"",
    )?;
    run_case(
        rt,
        b"named in another retuning",
        b"RETUNING a ( x ) = x [ ] b = x [ ]",
        b"",
    )
}

// "named twice .. at that name, if twice the second": at the Y, byte 16 (10), and at the second y behind two others, byte 22 (16).
fn run_named_twice(rt: &impl Print) -> io::Result<()> {
    run_case(
        rt,
        b"placeholder named twice",
        b"RETUNING a ( y, Y ) = y [ ]",
        b"",
    )?;
    run_case(
        rt,
        b"fourth as the second",
        b"RETUNING a ( x, y, z, y ) = y [ ]",
        b"",
    )
}

// "or a wrong count in a call .. for a count the called one": a start that gives none, byte 41 (29), and one for none, byte 36 (24); an order that gives
// one for two, byte 55 (37), also where no placeholder stands for an n, byte 59 (3B).
fn run_wrong_count(rt: &impl Print) -> io::Result<()> {
    run_case(
        rt,
        b"no number for one",
        b"RETUNING a ( x ) = x [ ] LOGIC L KEY L = a [ ]",
        b"",
    )?;
    run_case(
        rt,
        b"a number for none",
        b"RETUNING a = 60 [ ] LOGIC L KEY L = a ( 1 ) [ ]",
        b"",
    )?;
    run_case(
        rt,
        b"a number for two",
        b"RETUNING a ( x, y ) = x [ ] LOGIC L KEY L = [ KEY A -> a ( 1 ) ]",
        b"",
    )?;
    run_case(
        rt,
        b"a number for two of no use",
        b"RETUNING a ( x, y ) = @ + 1 [ ] LOGIC L KEY L = [ KEY A -> a ( 1 ) ]",
        b"",
    )
}

// A logic and a tone system take none: at the called name, bytes 27 (1B) and 74 (4A). Where a retuning has the tone system's name it is the retuning that is
// called, and that takes one: byte 80 (50).
fn run_other_kinds_called(rt: &impl Print) -> io::Result<()> {
    run_case(
        rt,
        b"a number for a logic",
        b"LOGIC L KEY L = [ KEY A -> L ( 1 ) ]",
        b"",
    )?;
    run_case(
        rt,
        b"a number for a tone system",
        b"INTERVAL O = 2 : 1 TONE a = 440 TONESYSTEM T = 69 [ a ] O LOGIC L KEY L = T ( 1 ) [ ]",
        b"",
    )?;
    run_case(
        rt,
        b"none for a retuning and tone system",
        b"TONE a = 440 TONESYSTEM T = 69 [ a ] O RETUNING T ( x ) = x [ ] LOGIC L KEY L = T [ ] INTERVAL O = 2 : 1",
        b"",
    )
}

// Of several the first place has it, whatever the cause: a count, byte 16 (10), before a name that is not named; one named twice, byte 16 again, before a
// count; one that is not named, byte 13 (0D), before one named twice.
fn run_earliest(rt: &impl Print) -> io::Result<()> {
    run_case(
        rt,
        b"a count first",
        b"LOGIC L KEY L = a [ ] RETUNING a ( x ) = y [ ]",
        b"",
    )?;
    run_case(
        rt,
        b"named twice first",
        b"RETUNING a ( x, x ) = x [ ] LOGIC L KEY L = a [ ]",
        b"",
    )?;
    run_case(
        rt,
        b"not named first",
        b"RETUNING a = y [ ] b ( x, x ) = x [ ]",
        b"",
    )
}

// "24, after 6 and before 7", wherever they stand: 5 at the second a, byte 19 (13), and 6 at the c, byte 32 (20), behind an x that no brackets name; 24 at
// that x, before a b that depends on itself, byte 13 (0D), behind it, byte 28 (1C), and behind a p that is out of range (8), byte 42 (2A).
fn run_order_of_numbers(rt: &impl Print) -> io::Result<()> {
    run_case(rt, b"5 before 24", b"RETUNING a = x [ ] a = 60 [ ]", b"")?;
    run_case(
        rt,
        b"6 before 24",
        b"RETUNING a = x [ ] INTERVAL b = c",
        b"",
    )?;
    run_case(
        rt,
        b"24 before 7",
        b"RETUNING a = x [ ] INTERVAL b = b",
        b"",
    )?;
    run_case(
        rt,
        b"24 before 7, behind it",
        b"INTERVAL b = b RETUNING a = x [ ]",
        b"",
    )?;
    run_case(
        rt,
        b"24 before 8",
        b"INTERVAL o = 2 : 1 p = 999 o RETUNING a = x [ ]",
        b"",
    )
}

// "9 for a fifth name or number": at the z, byte 25 (19), and at the 5, byte 57 (39). 10,000 there is out of range as well, and "at one place the lower
// number" is 4. Where no name comes fifth it is 3, at the bracket, byte 25.
fn run_five(rt: &impl Print) -> io::Result<()> {
    run_case(
        rt,
        b"five names",
        b"RETUNING a ( v, w, x, y, z ) = x [ ]",
        b"",
    )?;
    run_case(
        rt,
        b"five numbers",
        b"RETUNING a ( x ) = x [ ] LOGIC L KEY L = a ( 1, 2, 3, 4, 5 ) [ ]",
        b"",
    )?;
    run_case(
        rt,
        b"five numbers, the last out of range",
        b"RETUNING a ( x ) = x [ ] LOGIC L KEY L = a ( 1, 2, 3, 4, 10000 ) [ ]",
        b"",
    )?;
    run_case(
        rt,
        b"four names and a comma",
        b"RETUNING a ( v, w, x, y, ) = x [ ]",
        b"",
    )
}

// "whole numbers from 0 to 9,999": 4 at the number of a start, byte 45 (2D), and of an order, byte 56 (38). "only a zero handed to `/` waits for the call":
// one that is written is 4, byte 28 (1C).
fn run_bad_numbers(rt: &impl Print) -> io::Result<()> {
    run_case(
        rt,
        b"10,000 handed",
        b"RETUNING a ( x ) = x [ ] LOGIC L KEY L = a ( 10000 ) [ ]",
        b"",
    )?;
    run_case(
        rt,
        b"a point in a number handed",
        b"RETUNING a ( x ) = x [ ] LOGIC L KEY L = [ KEY A -> a ( 1.0 ) ]",
        b"",
    )?;
    run_case(
        rt,
        b"a written zero",
        b"RETUNING a ( x ) = [ << @ / 0 >> ]",
        b"",
    )
}

// "3 for bad brackets": with nothing in them, byte 13 (0D); with nothing after a comma, byte 16 (10); a number for a name, byte 13; two names without a
// comma, byte 15 (0F); a second pair, byte 17 (11).
fn run_bad_brackets(rt: &impl Print) -> io::Result<()> {
    run_case(rt, b"empty brackets", b"RETUNING a ( ) = 60 [ ]", b"")?;
    run_case(
        rt,
        b"a comma and no name",
        b"RETUNING a ( x, ) = x [ ]",
        b"",
    )?;
    run_case(
        rt,
        b"a number for a name",
        b"RETUNING a ( 1 ) = 60 [ ]",
        b"",
    )?;
    run_case(rt, b"no comma", b"RETUNING a ( x y ) = x [ ]", b"")?;
    run_case(rt, b"two pairs", b"RETUNING a ( x ) ( y ) = x [ ]", b"")
}

// The same of calls: nothing in them, byte 45 (2D); a name for a number, byte 56 (38). Where there is no start a bracket calls nothing, byte 16 (10).
fn run_bad_calls(rt: &impl Print) -> io::Result<()> {
    run_case(
        rt,
        b"empty brackets in a call",
        b"RETUNING a ( x ) = x [ ] LOGIC L KEY L = a ( ) [ ]",
        b"",
    )?;
    run_case(
        rt,
        b"a name for a number",
        b"RETUNING a ( x ) = x [ ] LOGIC L KEY L = [ KEY A -> a ( x ) ]",
        b"",
    )?;
    run_case(
        rt,
        b"a number and no call",
        b"LOGIC L KEY L = ( 1 ) [ ]",
        b"",
    )
}

// "after any retuning's name", and after no other: 3 at the bracket, bytes 11 (0B), 7, 13 (0D), 8 and 10 (0A). In a period `B` is an interval, and the bracket,
// byte 19 (13), comes after it.
fn run_other_blocks(rt: &impl Print) -> io::Result<()> {
    run_case(rt, b"after an interval", b"INTERVAL a ( x ) = 2 : 1", b"")?;
    run_case(rt, b"after a tone", b"TONE a ( x ) = 440", b"")?;
    run_case(
        rt,
        b"after a tone system",
        b"TONESYSTEM a ( x ) = 69 [ t ] o",
        b"",
    )?;
    run_case(rt, b"after a logic", b"LOGIC a ( x ) KEY L = [ ]", b"")?;
    run_case(rt, b"after a harmony", b"HARMONY a ( x ) = { 0 }", b"")?;
    run_case(
        rt,
        b"after a term",
        b"RETUNING A = [ ] B ( x ) = x [ ]",
        b"",
    )
}

// A placeholder stands for n alone: `x + 1` is 3 at the sign, byte 21 (15), and `x O`, as it were a factor, 3 at the O, byte 27 (1B). As a tone or an interval
// it is a name like others, and is not declared: 6, byte 21 (15).
fn run_other_uses(rt: &impl Print) -> io::Result<()> {
    run_case(rt, b"a sum for n", b"RETUNING a ( x ) = x + 1 [ ]", b"")?;
    run_case(
        rt,
        b"a placeholder as a factor",
        b"RETUNING a ( x ) = [ @ + x O ]",
        b"",
    )?;
    run_case(
        rt,
        b"a placeholder as a tone",
        b"RETUNING a ( x ) = [ x ]",
        b"",
    )
}

// Brackets that do not close: 3 at the text's length, 14 (0E), 12 (0C) and 46 (2E).
fn run_unclosed(rt: &impl Print) -> io::Result<()> {
    run_case(rt, b"unclosed after a name", b"RETUNING a ( x", b"")?;
    run_case(rt, b"unclosed and empty", b"RETUNING a (", b"")?;
    run_case(
        rt,
        b"unclosed in a call",
        b"RETUNING a ( x ) = x [ ] LOGIC L KEY L = a ( 1",
        b"",
    )
}

fn run_taken(rt: &impl Print) -> io::Result<()> {
    run_new_anchor(rt)?;
    run_division_by_zero(rt)?;
    run_of_no_use(rt)?;
    run_one_name(rt)?;
    run_each_form(rt)?;
    run_four(rt)?;
    run_comments(rt)?;
    run_chords_with_numbers(rt)
}

pub fn run_with_placeholders(rt: &impl Print) -> io::Result<()> {
    run_taken(rt)?;
    run_not_named(rt)?;
    run_named_twice(rt)?;
    run_wrong_count(rt)?;
    run_other_kinds_called(rt)?;
    run_earliest(rt)?;
    run_order_of_numbers(rt)?;
    run_five(rt)?;
    run_bad_numbers(rt)?;
    run_bad_brackets(rt)?;
    run_bad_calls(rt)?;
    run_other_blocks(rt)?;
    run_other_uses(rt)?;
    run_unclosed(rt)
}
