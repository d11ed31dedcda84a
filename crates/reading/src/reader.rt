// Reading a text into a grid.
use crate::fault::FileFault;
use crate::form::Parser;
use crate::layer::{Layer, ReadRefusal, refused};
use crate::line::PointLine;
use grid::grid::Grid;
use kinds::kind::Kind;
use points::point::number_of;
use points::refusal::Refusal;

/// Line 1 alone, by the number of dimensions that it names.
pub fn dimensions(text: &[u8]) -> Result<i32, ReadRefusal> {
    Parser::new(text)
        .grid_line()
        .map_err(|fault| refused(text, FileFault::from(fault)))
}

/// Reads a text into a grid that holds nothing, and tells how many points it put in. A text that is refused leaves the
/// grid with nothing in it.
pub fn read<K: Kind>(text: &[u8], grid: &mut Grid<'_, '_, K>) -> Result<usize, ReadRefusal> {
    if !grid.is_empty() {
        return Err(ReadRefusal {
            refusal: Refusal::GridNotEmpty,
            // No line is read yet.
            line: 0,
            byte: 0,
            layer: Layer::Grid,
        });
    }
    if let Err(fault) = read_lines(text, grid) {
        grid.clear();
        return Err(refused(text, fault));
    }
    Ok(grid.count())
}

/// All lines of a text; nothing comes after the end line.
fn read_lines<K: Kind>(text: &[u8], grid: &mut Grid<'_, '_, K>) -> Result<(), FileFault> {
    let mut parser = Parser::new(text);
    if parser.grid_line()? != i32::from(grid.dims().count()) {
        return Err(FileFault::Refused(Refusal::OtherDimensions, 0));
    }
    parser.unit_line()?;
    read_points(&mut parser, grid)?;
    parser.end()
}

/// The lines after the second, up to the end line.
fn read_points<K: Kind>(
    parser: &mut Parser<'_>,
    grid: &mut Grid<'_, '_, K>,
) -> Result<(), FileFault> {
    let dims = grid.dims();
    loop {
        let place = parser.at.place;
        let Some(line) = parser.body_line(dims)? else {
            return Ok(());
        };
        put_point(line, grid).map_err(|refusal| FileFault::Refused(refusal, place))?;
    }
}

/// Puts in the point of a line. A coordinate that does not fit a byte is none of a point.
fn put_point<K: Kind>(line: PointLine, grid: &mut Grid<'_, '_, K>) -> Result<(), Refusal> {
    let coordinates = line
        .coordinates
        .try_map(u8::try_from)
        .map_err(|_| Refusal::Coordinate)?;
    grid.put(number_of(coordinates), line.sample)
}
