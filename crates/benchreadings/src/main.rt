// Runs the bench readings of document 01 and others like them (levels, minus nought, the bytes that refusals tell) and shows what each gives: of a block
// words, bytes and values, or the refusal's number and place; of a line its number and the bytes of its reply, and of 26 which rule the word breaks and the
// byte of the line. A table is one text. A row of it is a letter and a blank, a name, a bar, the bytes that are read, and a semicolon. The letter: S a total
// station's block, L a level's, F a line on a fresh image, M a line 64 times on a fresh image, and how often it was accepted, I a line on the image as the
// row before left it.
#![tactic(auto)]

use blocks::answers::{Reading, Refusal, refusal_number, refusal_tells};
use blocks::judging::{answer_of, start_of};
use instrument::settings::Series;
use lines::machine::{Told, line};
use lines::verdicts::{Verdict, verdict_byte, verdict_number, verdict_which};
use state::image::IMAGE_100;
use state::laying::put_factory;
use std::io::Write;
use streams::telling::{put, put_number};
use units::kinds::Family;
use words::reading::{read_word, width_of};
use words::records::Word;

fn put_value<W: Write>(out: &mut W, word: Word) {
    put_number(out, b" ", u64::from(word.index));
    put_number(out, if word.minus == 1 { b"=-" } else { b"=+" }, word.size);
}

// Shows the values of a block that was read.
fn put_values<W: Write>(out: &mut W, family: Family, block: &[u8], reading: Reading) {
    let wide = reading.wide;
    if let Some(words) = block.get(start_of(wide)..) {
        for word in words.chunks(width_of(wide) + 8).take(reading.words) {
            if let Ok(word) = read_word(word, family, wide) {
                put_value(out, word);
            }
        }
    }
}

fn put_answer<W: Write>(out: &mut W, answer: Result<Reading, Refusal>) {
    match answer {
        Err(refusal) => {
            put_number(out, b" refused=", refusal_number(refusal));
            put_number(out, b" place=", refusal_tells(refusal) as u64);
        }
        Ok(reading) => {
            put_number(out, b" words=", reading.words as u64);
            put_number(out, b" bytes=", reading.used as u64);
        }
    }
}

fn put_verdict<W: Write>(out: &mut W, verdict: Verdict) {
    put_number(out, b" number=", verdict_number(verdict));
    let which = verdict_which(verdict);
    if which != 0 {
        put_number(out, b" which=", which);
        put_number(out, b" byte=", verdict_byte(verdict) as u64);
    }
}

fn judge_block<W: Write>(out: &mut W, family: Family, block: &[u8]) {
    let answer = answer_of(block, family);
    put_answer(out, answer);
    if let Ok(reading) = answer {
        put_values(out, family, block, reading);
    }
    put(out, b"\n");
}

// Runs the line on the image, with room for a TPS100's longest reply.
fn answer(image: &mut [u8], text: &[u8]) -> Told {
    let mut reply = [0; 306];
    line(image, text, &mut reply)
}

fn send_line<W: Write>(out: &mut W, image: &mut [u8], text: &[u8]) {
    let told = answer(image, text);
    put_verdict(out, told.verdict);
    put_number(out, b" reply=", told.count as u64);
    put(out, b"\n");
}

fn renew(image: &mut [u8]) {
    put_factory(Series::Tps100, image);
}

// Sends the line 64 times and counts how often it is accepted.
fn send_often(image: &mut [u8], text: &[u8]) -> u64 {
    let mut accepted = 0;
    for _ in 0..64u64 {
        if answer(image, text).verdict.is_ok() {
            accepted += 1;
        }
    }
    accepted
}

fn run<W: Write>(out: &mut W, image: &mut [u8], letter: u8, bytes: &[u8]) {
    match letter {
        b'S' => judge_block(out, Family::Station, bytes),
        b'L' => judge_block(out, Family::Level, bytes),
        b'F' => {
            renew(image);
            send_line(out, image, bytes);
        }
        b'M' => {
            renew(image);
            put_number(out, b" accepted=", send_often(image, bytes));
            put(out, b"\n");
        }
        _ => send_line(out, image, bytes),
    }
}

fn run_row<W: Write>(out: &mut W, image: &mut [u8], row: &[u8]) {
    if let [letter, _, rest @ ..] = row
        && let Some(bar) = rest.iter().position(|b| *b == b'|')
    {
        put(out, &rest[..bar]);
        run(out, image, *letter, &rest[bar + 1..]);
    }
}

// Runs a table on an image of its own, which is no state until a row renews it.
fn run_table<W: Write>(out: &mut W, table: &[u8]) {
    let mut image = [0; IMAGE_100];
    for row in table.split(|b| *b == b';') {
        run_row(out, &mut image, row);
    }
}

// P1 to P11.
const READINGS: &[u8] =
    b"S P1|110014+00000003 21.324+27952530 22.324+27000430 31..01+00265965 51..1.+0009+000 \r\n;\
      S P2|\r;\
      S P3|*11....+000000000PNC0058 \r;\
      S P4|21.102+39999999 \r;\
      S P4|21.102+40000000 \r;\
      S P5|21.104+35959599 \r;\
      S P5|21.104+00060000 \r;\
      S P6|82..00-00213159 \r;\
      S P6|82..00-00000000 \r;\
      S P7|331106+00010198 \r;\
      F P8 SET/40/2|SET/40/2\r;\
      F P8 SET/40/3|SET/40/3\r;\
      F P8 SET/33/0|SET/33/0\r;\
      F P9 CONF/70|CONF/70\r;\
      F P10 GET/I/WI88|GET/I/WI88\r;\
      F P11 UNDO|UNDO\r;";

// A level's words: a backsight, a difference below zero, a ground height; inches, a unit that doesn't exist, a wide word.
const LEVEL_WORDS: &[u8] = b"L 331106|331106+00010198 \r;\
      L 573..0|573..0-00000880 \r;\
      L 83..16|83..16+00187430 \r;\
      L 331109|331109+00000001 \r;\
      L 331105|331105+00000001 \r;\
      S 32..09 of a station|32..09+00000001 \r;\
      L wide|*331106+0000000000010198 \r;";

// Words whose index is just inside or just outside what a level has.
const LEVEL_EDGES: &[u8] = b"L 330|330..0+00000001 \r;\
      L 336|336..0+00000001 \r;\
      L 374|374..0+00000001 \r;\
      L 521|521...+00000001 \r;\
      L 329|329..0+00000001 \r;\
      L 337|337..0+00000001 \r;\
      L 373|373..0+00000001 \r;\
      L 375|375..0+00000001 \r;\
      L 520|520..0+00000001 \r;\
      L 570|570..0+00000001 \r;\
      L 575|575..0+00000001 \r;\
      L 420...|420...+00000001 \r;\
      L 32100.|32100.+00000001 \r;";

// 003's listing of a level.
const LEVEL_LISTING: &[u8] = b"L block 1|410001+00000020 42....+10842V02 \r\n;\
      L block 2|410002+00000021 42....+00007330 \r\n;\
      L block 3|410003+00000022 42....+00261001 \r\n;\
      L block 4|410004+?......1 \r\n;\
      L block 5|110005+00003000 83..16+00187430 \r\n;\
      L block 6|110006+00003000 32..00+00016380 331106+00010198 \r\n;\
      L block 7|110007+00004000 32..00+00017260 332106+00007177 \r\n;\
      L block 8|110008+00004000 573..0-00000880 574..0+00033650 83..06+00190451 \r\n;\
      L block 9|110009+00004000 32..00+00019390 331106+00007600 \r\n;\
      L block 13|110013+00004001 32..00+00019490 332106+00006824 \r\n;\
      L block 14|110014+00004001 573..0-00000850 574..0+00116940 83..06+00190458 \r\n;\
      L block 15|110015+00004001 32..00+00018220 331106+00006660 \r\n;\
      L block 16|110016+00003000 32..00+00015370 332106+00009686 \r\n;\
      L block 17|110017+00003000 573..0+00002000 574..0+00150530 83..06+00187432 \r\n;";

// Minus nought: a level's difference, an angle in seconds, the halves of a pair, a wide word; then an angle out of its range; then minus
// nought put over nought and taken back.
const NOUGHTS: &[u8] = b"L 573..0 minus nought|573..0-00000000 \r;\
      S 21.104 minus nought|21.104-00000000 \r;\
      S 51..1. minus nought|51..1.-0000-000 \r;\
      S wide minus nought|*82..00-0000000000000000 \r;\
      S minus 400 gon|21.102-40000000 \r;\
      F PUT of nought|PUT/83...0+00000000 \r;\
      I PUT of minus nought|PUT/83...0-00000000 \r;\
      I GET|GET/I/WI83\r;\
      I UNDO|UNDO\r;";

// The byte that each refusal of a word tells, 5 to 10 and 15, and then what a line is refused for: no keyword, a keyword with a wrong
// remainder, a PUT word by each of its rules.
const TOLD: &[u8] = b"S 1A....|1A....+00000001 \r;\
      S 14....|14....+00000001 \r;\
      S 110.14|110.14+00000001 \r;\
      S text with a minus|11....-00000001 \r;\
      S the height 000A5320|110002+00000102 81..10+01251340 82..10+01907815 83..10+000A5320 \r\n;\
      S a pair's inner sign|51..1.+0009.000 \r;\
      S no blank, wide|*83..10+0000000000045320,\r;\
      S 400 gon|21.102+40000000 \r;\
      L 33x106|33x106+00010198 \r;\
      L 331006|331006+00010198 \r;\
      F set/30/1|set/30/1\r;\
      F UNDO1|UNDO1\r;\
      F SETTLE|SETTLE\r;\
      F GET/M/WI11|GET/M/WI11\r;\
      F PUT with a mode|PUT/83..10+00000001 \r;\
      F PUT of unit 2|PUT/83...2+00000001 \r;\
      F PUT without sign|PUT/83...0 00000001 \r;\
      F PUT of 000A5320|PUT/83...0+000A5320 \r;\
      F PUT without blank|PUT/83...0+00000001,\r;\
      F PUT of 400 gon|PUT/21...2+40000000 \r;";

// An undo list filled, and the longest GET and one that is longer.
const LONGEST: &[u8] = b"M 64 times SET/30/1|SET/30/1\r;\
      I one more|SET/30/1\r;\
      I UNDO|UNDO\r;\
      I SET/30/1 again|SET/30/1\r;\
      F PUT|PUT/88...0+00001550 \r;\
      I GET with 19 indexes|GET/I/WI88/WI88/WI88/WI88/WI88/WI88/WI88/WI88/WI88/WI88/WI88/WI88/WI88/WI88/WI88/WI88/WI88/WI88/WI88\r;\
      I GET with 20 indexes|GET/I/WI88/WI88/WI88/WI88/WI88/WI88/WI88/WI88/WI88/WI88/WI88/WI88/WI88/WI88/WI88/WI88/WI88/WI88/WI88/WI88\r;";

// What can't be written is passed over.
fn main(rt: HostRuntime) {
    let mut out = rt.stdout();
    for table in [
        READINGS,
        LEVEL_WORDS,
        LEVEL_EDGES,
        LEVEL_LISTING,
        NOUGHTS,
        TOLD,
        LONGEST,
    ] {
        run_table(&mut out, table);
    }
}
