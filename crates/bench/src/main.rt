// The bench program: reads a sheet from standard input and writes its report to standard output.
#![tactic(auto)]

ghost use Rattle.std.specs.Prelude.{◌≡◌, ◌+◌, ◌*◌, ◌≤◌, length, take, drop};
ghost use Rattle.model.specs.Lines.{map_line};
ghost use Rattle.lines.specs.Written.{Put, Line};
ghost use Rattle.bench.specs.Report.{Reported};
ghost use Rattle.bench.specs.Steps.{StrandsOf, lines_upto, SkeletonTold, ListTold, AnswersTold};

use accept::accept;
use accept::sheet::Room;
use judge::{list, realized, sheet};
use lines::page::Page;
use lines::{map_line, maps_line, sheet_line, skeleton_line};
use std::io;
use std::io::{Read, Write};
use tables::blocks::{block_of, strands_in};

// What the list is lent.
const SPACE: usize = 49152;

// What the longest report needs: four lines of at most 72 bytes, and for each of 49,152 bytes of a list at most four and for each
// of at most 46,656 maps the end of its line.
const PAGE: usize = 243552;

// How many bytes of the input decide.
const INPUT: usize = 4096;

// How many strands skeleton 0 has; 0 of a bad sheet, of which no map is listed.
fn strands(bytes: &[u8]) -> usize
    ensures { StrandsOf bytes.now result }
{
    let mut room = Room::EMPTY;
    match accept(bytes, &mut room) {
        Ok(sheet) => usize::from(strands_in(sheet.table, block_of(0))),
        Err(_) => 0,
    }
}

// The line of the map of n numbers that lies at `from`.
fn put_map(space: &[u8], from: usize, n: usize, page: &mut Page<'_>)
    requires { (from + n ≤ length space.now) × (page.old.end + 4 * n + 1 ≤ length page.old.bytes.now) }
    ensures text { Line (4 * n + 1) page.old.bytes.now page.old.end
        (map_line (take n (drop from space.now))) page.new.bytes.now page.new.end }
    ensures same_buffer { page.new.bytes.ghost_name ≡ page.old.bytes.ghost_name }
{
    map_line(&space[from..from + n], page);
}

// The lines of the maps, n numbers each, that lie end to end. Each is taken by its place: `chunks_exact` asks that n is not 0, which the
// answer of the list question alone does not say.
fn put_maps(space: &[u8], count: usize, n: usize, page: &mut Page<'_>)
    requires { (count * n ≤ length space.now) × (page.old.end + count * (4 * n + 1) ≤ length page.old.bytes.now) }
    ensures text { Put page.old.bytes.now page.old.end (lines_upto count n space.now) page.new.bytes.now page.new.end }
    ensures same_buffer { page.new.bytes.ghost_name ≡ page.old.bytes.ghost_name }
{
    for k in 0..count {
        put_map(space, k * n, n, page);
    }
}

// The maps from skeleton 0 to skeleton 1: how many there are, and a line for each of them.
fn put_list(bytes: &[u8], space: &mut [u8; SPACE], page: &mut Page<'_>)
    requires { page.old.end + 243336 ≤ length page.old.bytes.now }
    ensures text { ListTold bytes.now space.old page.old.bytes.now page.old.end page.new.bytes.now page.new.end }
    ensures same_buffer { page.new.bytes.ghost_name ≡ page.old.bytes.ghost_name }
{
    let answer = list(bytes, 0, 1, space);
    maps_line(0, 1, answer, page);
    let Ok(count) = answer else {
        return;
    };
    put_maps(space, count, strands(bytes), page);
}

// Is skeleton k realized?
fn put_skeleton(bytes: &[u8], k: u8, page: &mut Page<'_>)
    requires { page.old.end + 72 ≤ length page.old.bytes.now }
    ensures text { SkeletonTold bytes.now k page.old.bytes.now page.old.end page.new.bytes.now page.new.end }
    ensures same_buffer { page.new.bytes.ghost_name ≡ page.old.bytes.ghost_name }
{
    skeleton_line(k, realized(bytes, k), page);
}

// What is said of a good sheet with so many skeletons, after its first line.
fn put_answers(bytes: &[u8], skeletons: usize, space: &mut [u8; SPACE], page: &mut Page<'_>)
    requires { page.old.end + 243480 ≤ length page.old.bytes.now }
    ensures text { AnswersTold bytes.now space.old skeletons page.old.bytes.now page.old.end page.new.bytes.now page.new.end }
    ensures same_buffer { page.new.bytes.ghost_name ≡ page.old.bytes.ghost_name }
{
    put_skeleton(bytes, 0, page);
    if skeletons < 2 {
        return;
    }
    put_skeleton(bytes, 1, page);
    put_list(bytes, space, page);
}

// All that is said of the sheet.
fn report(bytes: &[u8], space: &mut [u8; SPACE], page: &mut Page<'_>)
    requires { (page.old.end ≡ 0) × (243552 ≤ length page.old.bytes.now) }
    ensures text { Reported bytes.now space.old page.old.bytes.now page.new.bytes.now page.new.end }
    ensures same_buffer { page.new.bytes.ghost_name ≡ page.old.bytes.ghost_name }
{
    let answer = sheet(bytes);
    sheet_line(answer, page);
    let Ok(counts) = answer else {
        return;
    };
    put_answers(bytes, counts.skeletons, space, page);
}

// Reads until the buffer is full, the input ends or a read fails, and says how many bytes were read. The loop stands here since
// `read_exact` says nothing of an input that is shorter, and `read_to_end` takes the heap.
fn read_full<R: Read>(reader: &mut R, bytes: &mut [u8]) -> usize
    ensures { result ≤ length bytes.new }
{
    let mut length = 0;
    while length < bytes.len() {
        match reader.read(&mut bytes[length..]) {
            Ok(more) if more > 0 => length += more,
            _ => break,
        }
    }
    length
}

// The first 4,096 bytes decide. A read that fails ends the sheet where it stands; a write that fails ends the program with its error.
fn main(rt: HostRuntime) -> io::Result<()> {
    let mut bytes = [0; INPUT];
    let length = read_full(&mut rt.reader(), &mut bytes);
    let mut space = [0; SPACE];
    let mut buffer = [0; PAGE];
    let mut page = Page {
        bytes: &mut buffer,
        end: 0,
    };
    report(&bytes[..length], &mut space, &mut page);
    let end = page.end;
    io::writer(&rt).write_all(&buffer[..end])
}
