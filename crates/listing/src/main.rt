// The listing program (document 01, 'The listing program'): instance text on standard input, the listing of its front on standard output.
// It lends room for 1,024 points and prints by the lines of the crate `lines`. Where standard input cannot be read it says why on standard
// error and prints nothing; where standard output takes no more it stops.
#![tactic(auto)]

ghost use Rattle.std.specs.Prelude.{◌*◌, ◌≤◌, length, IfOk};

use front::{ListError, list_front};
use instance::Instance;
use lines::{MAX_LINE, put_front, put_point, put_refused};
use points::Point;
use reading::read_text;
use refusals::Refusal;
use std::io;
use std::io::{Read, Stdout};

// Prints the line of a refusal.
fn print_refused<E: Refusal>(out: &Stdout, refusal: E) -> io::Result<()> {
    let mut line = [0u8; MAX_LINE];
    let len = put_refused(&mut line, refusal.number(), refusal.value());
    out.write_all(&line[..len])
}

// Prints the first line.
fn print_front(out: &Stdout, points: u64, sizes: Instance, cut: bool) -> io::Result<()> {
    let mut line = [0u8; MAX_LINE];
    let len = put_front(
        &mut line,
        points,
        sizes.objectives as u64,
        sizes.variables,
        cut,
    );
    out.write_all(&line[..len])
}

// Prints the line of a point of so many objectives.
fn print_point(out: &Stdout, place: u64, point: Point, objectives: usize) -> io::Result<()>
    requires { objectives ≤ 4 }
{
    let mut line = [0u8; MAX_LINE];
    let len = put_point(&mut line, place, &point.values[..objectives], point.model);
    out.write_all(&line[..len])
}

// Prints a listing of the first points of the runs.
fn print_listing(
    out: &Stdout,
    sizes: Instance,
    values: &[i64],
    models: &[u64],
    points: usize,
    cut: bool,
) -> io::Result<()>
    requires { (sizes.objectives ≤ 4) × (points ≤ 1024) × (points * 4 ≤ length values.now) × (points ≤ length models.now) }
{
    print_front(out, points as u64, sizes, cut)?;
    for k in 0..points {
        print_point(
            out,
            k as u64 + 1,
            Point::at(values, models, k),
            sizes.objectives,
        )?;
    }
    Ok(())
}

// Lists the front of the instance that the tables hold, and prints it.
fn print_instance(out: &Stdout, terms: &[i32], rows: &[i64]) -> io::Result<()> {
    let sizes = match Instance::of(terms, rows) {
        Ok(sizes) => sizes,
        Err(refusal) => return print_refused(out, refusal),
    };
    let mut values = [0i64; Point::MAX_POINTS as usize * Point::VALUES];
    let mut models = [0u64; Point::MAX_POINTS as usize];
    match list_front(terms, rows, &mut values, &mut models) {
        Ok(points) => print_listing(out, sizes, &values, &models, points as usize, false),
        Err(refusal) => match refusal {
            ListError::Larger(room) => {
                print_listing(out, sizes, &values, &models, room as usize, true)
            }
            ListError::NotInstance => print_refused(out, refusal),
        },
    }
}

// Reads a text into tables and prints the listing of its front, or the refusal.
fn print_text(out: &Stdout, text: &[u8]) -> io::Result<()> {
    let mut terms = [0i32; Instance::TERM_ROOM];
    let mut rows = [0i64; Instance::ROW_ROOM];
    match read_text(text, &mut terms, &mut rows) {
        Ok(_) => print_instance(out, &terms, &rows),
        Err(refusal) => print_refused(out, refusal),
    }
}

// Reads until the buffer is full or the input ends, and answers how many bytes it put at the buffer's start.
fn read_full<R: Read>(input: &mut R, buf: &mut [u8]) -> io::Result<usize>
    ensures { IfOk result (λ n. n ≤ length buf.new) }
{
    let mut done: usize = 0;
    // Kept as a while: a turn goes on by as many bytes as came, and `read_to_end` would need the heap.
    while done < buf.len() {
        let n = input.read(&mut buf[done..])?;
        if n == 0 {
            break;
        }
        done += n;
    }
    Ok(done)
}

// The buffer has room for one byte more than the longest text, so a longer input is seen to be too long.
fn main(rt: HostRuntime) {
    let mut text = [0u8; 65_536];
    let mut input = rt.stdin();
    match read_full(&mut input, &mut text) {
        Ok(len) => {
            let _ = print_text(&rt.stdout(), &text[..len]);
        }
        Err(error) => {
            let _ = eprintln!(rt; "standard input: {error}");
        }
    }
}
