//! The words for parts of answers.
use rma_base::Point;
use std::io;

/// Prints a number, or that there is none.
pub fn print_number(rt: HostRuntime, number: Option<u32>) -> io::Result<()> {
    match number {
        Some(number) => println!(rt; "= {number}"),
        None => println!(rt; "= none"),
    }
}

/// Prints whether something is so.
pub fn print_whether(rt: HostRuntime, is_so: bool) -> io::Result<()> {
    println!(rt; "= {}", if is_so { "yes" } else { "no" })
}

/// Prints a point behind a blank, by its rank and its number among the points of that.
pub fn print_point(rt: HostRuntime, point: Point) -> io::Result<()> {
    print!(rt; " ({},{})", point.rank.0, point.pos)
}

/// Prints points, or that there are none.
pub fn print_points(rt: HostRuntime, points: &[Point]) -> io::Result<()> {
    if points.is_empty() {
        return println!(rt; "= nothing");
    }
    print!(rt; "=")?;
    for point in points {
        print_point(rt, *point)?;
    }
    println!(rt; "")
}
