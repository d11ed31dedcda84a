// The report on an input: the integral of the grid that it writes, or why it is refused.
use crate::lowest::lowest_terms;
use grid::grid::Grid;
use grid::record::Record;
use kinds::dyadic::Dyadic;
use kinds::pair::Pair;
use kinds::residue::Residue;
use points::dimensions::Dims;
use points::refusal::Refusal;
use reading::layer::{Layer, ReadRefusal};
use reading::reader::{dimensions, read};
use std::alloc::{AllocError, Global};
use std::fmt;
use store::{Entry, Store};

/// The longest input, in bytes.
const LONGEST_INPUT: usize = 32_768;

// The memory that the grid is lent is of fixed size, since the number of places is.
/// The point places of the program's grid.
const PLACES: usize = 512;

/// The lookup entries of the program's grid.
const ENTRIES: usize = 1_024;

/// What is told of a text that is read: how many points it has, the integral in lowest terms, and its residue as a control.
#[derive(Clone, Copy, PartialEq, Eq, Debug)]
pub struct Summary {
    pub points: usize,
    pub numerator: i64,
    pub exponent: u32,
    pub control: u32,
}

impl fmt::Display for Summary {
    fn fmt<W: fmt::Write>(&self, f: &mut fmt::Formatter<W>) -> fmt::Result {
        writeln!(f, "(points {})", self.points)?;
        writeln!(f, "(integral {} {})", self.numerator, self.exponent)?;
        writeln!(f, "(control {})", self.control)
    }
}

/// A grid of so many dimensions for the text, and what is told of it.
fn summary_of(text: &[u8], dims: Dims) -> Result<Summary, ReadRefusal> {
    let mut records: [Record<Pair<Dyadic, Residue>>; PLACES] = [Record::blank(); PLACES];
    let mut entries = [Entry::blank(); ENTRIES];
    let mut store = Store::new(0, &mut records, &mut entries);
    // A grid is made with any figures, so that it takes a number here.
    let mut grid = Grid::new(u32::from(dims.count()), 1, 1, &mut store);
    let points = read(text, &mut grid)?;
    let integral = grid.integral();
    let (numerator, exponent) = lowest_terms(integral.first.count);
    Ok(Summary {
        points,
        numerator,
        exponent,
        control: integral.second.least(),
    })
}

/// Why an input is refused before its points are read.
fn refused_at(refusal: Refusal, line: usize, layer: Layer) -> ReadRefusal {
    ReadRefusal {
        refusal,
        line,
        byte: 0,
        layer,
    }
}

/// The report on an input: what is told of its grid, or why it is refused.
pub fn report_on(input: &[u8]) -> Result<Summary, ReadRefusal> {
    if input.len() > LONGEST_INPUT {
        // No line is read yet: line 0.
        return Err(refused_at(Refusal::InputLength, 0, Layer::End));
    }
    let dims = u32::try_from(dimensions(input)?)
        .map_err(|_| Refusal::Dimensions)
        .and_then(Dims::new)
        .map_err(|refusal| refused_at(refusal, 1, Layer::Grid))?;
    summary_of(input, dims)
}

/// The bytes that the program prints for an input.
pub fn printed(heap: Global, input: &[u8]) -> Result<String, AllocError> {
    match report_on(input) {
        Ok(summary) => summary.to_string(heap),
        Err(refusal) => refusal.to_string(heap),
    }
}
