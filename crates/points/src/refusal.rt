// Why a call is refused, and the number that stands for it.
ghost use Rattle.std.specs.Prelude.{◌≡◌};
ghost use Rattle.points.specs.Refusals.{number_of};

#[derive(Clone, Copy, PartialEq, Eq, Debug)]
pub enum Refusal {
    /// The number of dimensions is not 1 to 4.
    Dimensions = 1,
    /// The point places are not 1 to 4,096, or the lookup entries are fewer.
    Memory = 2,
    /// A grid number, a first ticket number or a session is 0.
    ZeroNumber = 3,
    /// A coordinate is not 1 to 127, one of a place is not 0 to 128, or an unused one is not 0.
    Coordinate = 4,
    /// The level sum passes 16.
    LevelSum = 5,
    /// The sample does not fit, or its numeral is outside the range.
    Sample = 6,
    /// The text breaks its form.
    Form = 7,
    /// The text has another number of dimensions than the grid.
    OtherDimensions = 8,
    /// The unit word is not 1 to 16 letters.
    UnitWord = 9,
    /// The program's input passes 32,768 bytes.
    InputLength = 10,
    /// The point is in.
    PointIn = 20,
    /// The point is out.
    PointOut = 21,
    /// A parent is not in.
    ParentNotIn = 22,
    /// The points in and out fill the places.
    PlacesFull = 23,
    /// The next ticket number passes 4,294,967,295.
    TicketsSpent = 24,
    /// No point is out under this ticket.
    NoSuchTicket = 25,
    /// The point is not in.
    PointNotIn = 26,
    /// A child is in or out.
    ChildKnown = 27,
    /// The grid to be read into has something in or out.
    GridNotEmpty = 28,
    /// The written text is longer than the buffer.
    BufferLength = 29,
    /// A sample to be written has no back.
    NoNumeral = 30,
}

/// The number of a refusal.
impl From<Refusal> for u32 {
    ghost from_gives = { λ refusal n. n ≡ number_of refusal };

    fn from(refusal: Refusal) -> u32 {
        refusal as u32
    }
}
