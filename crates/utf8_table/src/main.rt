// Runs `validate::validate` over whole sets of short byte strings, and prints how many it finds well formed.
//
// The expected output is worked out from the grammar of RFC 3629, section 4, and not from a run.
// Characters: of one byte 128. Of two, 30 * 64 = 1,920. Of three, 32 * 64 for E0, 12 * 64 * 64 for
// E1-EC, 32 * 64 for ED and 2 * 64 * 64 for EE-EF, together 61,440. Of four, 48 * 64 * 64 for F0,
// 3 * 64 * 64 * 64 for F1-F3 and 16 * 64 * 64 for F4, together 1,048,576.
// Well-formed strings of one byte: 128. Of two, 128 * 128 + 1,920 = 18,304. Of three,
// 128 * 128 * 128 + 2 * 128 * 1,920 + 61,440 = 2,650,112. Of four, where the first byte is F0 or
// above: one character of four bytes, 1,048,576.
// Two bytes, the first of them ASCII, are ill formed at 1 where the second is none, since no character
// of one byte begins with it: 128 * 128 = 16,384.
#![tactic(auto)]

ghost use Rattle.std.specs.Prelude.{◌≤◌};

use std::io;

// The place of the first ill-formed sequence, or the length of the text where there is none.
fn well_formed_up_to(text: &[u8]) -> usize {
    match validate::validate(text) {
        Ok(()) => text.len(),
        Err(error) => error.valid_up_to,
    }
}

// A number below 2^32 stands for a string: of its four bytes, the highest first, those from index start on. How many of the
// numbers from low on and below high stand for a string that is well formed up to index end and no further.
// A loop and no `filter`: in a closure the compiler does not see how short the strings are, leaves in what `validate` has for
// long ones, and a run takes 1.7 times as long.
fn count(low: u64, high: u64, start: usize, end: usize) -> u64
    requires { start ≤ 4 }
{
    let mut found = 0;
    for number in low..high {
        if well_formed_up_to(&number.to_be_bytes()[4 + start..]) == end {
            found += 1;
        }
    }
    found
}

fn print_count(rt: &impl Print, name: &str, found: u64) -> io::Result<()> {
    println!(rt; "{name}{found}")
}

fn print_answer(rt: &impl Print, name: &str, text: &[u8]) -> io::Result<()> {
    match validate::validate(text) {
        Ok(()) => println!(rt; "{name}well formed"),
        Err(error) => {
            let at = error.valid_up_to;
            println!(rt; "{name}ill formed at {at}")
        }
    }
}

fn main(rt: HostRuntime) -> io::Result<()> {
    print_count(&rt, "well formed, 1 byte: ", count(0, 0x100, 3, 1))?;
    print_count(&rt, "well formed, 2 bytes: ", count(0, 0x1_0000, 2, 2))?;
    print_count(&rt, "well formed, 3 bytes: ", count(0, 0x100_0000, 1, 3))?;
    print_count(
        &rt,
        "well formed, 4 bytes from F0 on: ",
        count(0xF000_0000, 0x1_0000_0000, 0, 4),
    )?;
    print_count(
        &rt,
        "ill formed at 1, 2 bytes from 00 to 7F on: ",
        count(0, 0x8000, 2, 1),
    )?;
    print_answer(&rt, "F4 90 80 80: ", b"\xF4\x90\x80\x80")?;
    print_answer(&rt, "EF BF BF: ", b"\xEF\xBF\xBF")
}
