// The lines of a text.
ghost use Rattle.std.specs.Prelude.{◌≡◌, [], OnOk, IfErr};
ghost use Rattle.reading.specs.declared.fault.FileFault.TheVariants.{GoesOn};
ghost use Rattle.text.specs.Cursor.{Onward};

use crate::fault::{FileFault, FormFault};
use crate::form::Parser;
use points::dimensions::Dims;
use text::token::Token;

/// The numbers of a point line; coordinates past the grid's dimensions are 0.
// Four coordinates for any number of dimensions, as a point has, and no memory to ask for.
#[derive(Clone, Copy)]
pub(crate) struct PointLine {
    pub(crate) coordinates: [i32; 4],
    pub(crate) sample: i32,
}

impl<'a> Parser<'a> {
    // Lines 1 and 2 share `open` and `close`; what is left of each is its item. The dimensions are no field of the parser, which
    // reads line 1 before it knows them.
    /// Line 1, `(grid d)`, by its numeral.
    pub(crate) fn grid_line(&mut self) -> Result<i32, FormFault>
        ensures { OnOk result (Onward self.old.at self.new.at) }
    {
        self.open(b"grid")?;
        let dimensions = self.number()?;
        self.close()?;
        Ok(dimensions)
    }

    /// Line 2, `(unit word)`, by its word.
    pub(crate) fn unit_line(&mut self) -> Result<&'a [u8], FormFault>
        ensures { OnOk result (Onward self.old.at self.new.at) }
    {
        self.open(b"unit")?;
        let unit = self.word()?;
        self.close()?;
        Ok(unit)
    }

    /// A line after the second: a point line, or none for the end line.
    pub(crate) fn body_line(&mut self, dims: Dims) -> Result<Option<PointLine>, FormFault>
        ensures { OnOk result (Onward self.old.at self.new.at) }
    {
        self.mark(Token::Open)?;
        let place = self.at.place;
        match self.word()? {
            b"end" => {
                self.close()?;
                Ok(None)
            }
            b"point" => Ok(Some(self.point_rest(dims)?)),
            _ => Err(FormFault::OtherToken(place)),
        }
    }

    /// A point line after its first word.
    fn point_rest(&mut self, dims: Dims) -> Result<PointLine, FormFault>
        ensures { OnOk result (Onward self.old.at self.new.at) }
    {
        self.mark(Token::Space)?;
        self.mark(Token::Open)?;
        let coordinates = self.coordinates(dims)?;
        self.mark(Token::Close)?;
        self.mark(Token::Space)?;
        let sample = self.number()?;
        self.close()?;
        Ok(PointLine {
            coordinates,
            sample,
        })
    }

    /// As many coordinates as there are dimensions, parted by spaces.
    fn coordinates(&mut self, dims: Dims) -> Result<[i32; 4], FormFault>
        ensures { OnOk result (Onward self.old.at self.new.at) }
    {
        let mut found = [0; 4];
        found[0] = self.number()?;
        for coordinate in &mut found[1..usize::from(dims.count())] {
            self.mark(Token::Space)?;
            *coordinate = self.number()?;
        }
        Ok(found)
    }

    /// The front of a line of two items: a bracket, a word and a space.
    fn open(&mut self, name: &[u8]) -> Result<(), FormFault>
        ensures { OnOk result (Onward self.old.at self.new.at) }
    {
        self.mark(Token::Open)?;
        self.keyword(name)?;
        self.mark(Token::Space)
    }

    /// Nothing comes after the end line.
    pub(crate) fn end(&self) -> Result<(), FileFault>
        ensures ok { OnOk result (self.now.at.rest.now ≡ []) }
        ensures err { IfErr result (λ fault. fault ≡ GoesOn self.now.at.place) }
    {
        if self.at.rest.is_empty() {
            Ok(())
        } else {
            Err(FileFault::GoesOn(self.at.place))
        }
    }

    /// The end of each line: a bracket and the line end.
    fn close(&mut self) -> Result<(), FormFault>
        ensures { OnOk result (Onward self.old.at self.new.at) }
    {
        self.mark(Token::Close)?;
        self.mark(Token::LineEnd)
    }
}
