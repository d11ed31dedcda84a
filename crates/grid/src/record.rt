// What a grid keeps of a point.
ghost use Rattle.std.specs.Prelude.{◌≡◌};
ghost use Rattle.grid.specs.declared.record.Record.TheVariants.{Out};

/// A point in: its sample, and its surplus, which is computed when it comes in.
#[derive(Clone, Copy)]
pub struct Entered<K> {
    pub(crate) sample: K,
    pub(crate) surplus: K,
}

/// A point out: the number of its ticket, and the session that drew it.
#[derive(Clone, Copy)]
pub struct Drawn {
    pub(crate) ticket: u32,
    pub(crate) session: u32,
}

/// A point that is in or out.
#[derive(Clone, Copy)]
pub enum Record<K> {
    In(Entered<K>),
    Out(Drawn),
}

impl<K> Record<K> {
    /// A record to make memory of, which no grid takes for a point.
    pub fn blank() -> Record<K>
        ensures { result ≡ Out (record { ticket = 0; session = 0 }) }
    {
        Record::Out(Drawn {
            ticket: 0,
            session: 0,
        })
    }
}
