//! The words for parts of answers.
use rma_base::Point;
use rma_rows::print_named;
use rma_rules::Access;
use rma_window::{WindowId, Windows};
use std::io;

/// Prints the name of an access, and the place in the program where its call stands.
pub fn print_name(rt: HostRuntime, access: &Access<'_>) -> io::Result<()> {
    print_named(rt, access.name, access.site)
}

/// Prints a point, by its rank and its number among the points of that.
pub fn print_point(rt: HostRuntime, point: Point) -> io::Result<()> {
    print!(rt; " ({},{})", point.rank.0, point.pos)
}

/// The name of a window, where it is one of these.
pub fn name_of(windows: &Windows, window: WindowId) -> &str {
    if (window.0 as usize) < windows.len() {
        windows.name(window).text()
    } else {
        "no window"
    }
}

/// Prints the window through which an access is made, and the basic datatype of its elements, where it has them.
pub fn print_window(rt: HostRuntime, windows: &Windows, access: &Access<'_>) -> io::Result<()> {
    if let Some(window) = access.window {
        print!(rt; " {}", name_of(windows, window))?;
    }
    match access.element {
        Some(element) => print!(rt; " {}", element.word()),
        None => Ok(()),
    }
}
