//! Which polarity a cell's rows have.

ghost use Rattle.fit_plans.specs.Choices.{Chooses};

use covers::Cube;

/// The rows that a cell takes, and whether they are those of the inverted form.
#[derive(Drop)]
pub struct Chosen {
    pub inverted: bool,
    pub rows: Vec<Cube>,
}

/// The covers that a cell was tried with: None if a polarity is not allowed, its lists are too wide, or it was not tried.
#[derive(Debug, Drop)]
pub struct Tried {
    pub direct: Option<Vec<Cube>>,
    pub inverted: Option<Vec<Cube>>,
}

/// Takes the direct cover if it fits the room, else the inverted one if this fits. An error gives both back. Takes no
/// memory.
pub fn choose(tried: Tried, room: usize) -> Result<Chosen, Tried>
    ensures { Chooses room tried.direct tried.inverted result }
{
    let Tried { direct, inverted } = tried;
    match direct {
        Some(rows) if rows.len() <= room => Ok(Chosen {
            inverted: false,
            rows,
        }),
        direct => match inverted {
            Some(rows) if rows.len() <= room => Ok(Chosen {
                inverted: true,
                rows,
            }),
            inverted => Err(Tried { direct, inverted }),
        },
    }
}
