//! The numbers and levels that single fields say, the last field of each kind.

use jedec_file::Field;

/// What the last field of each kind says, None if there isn't one.
#[derive(Clone, Copy)]
pub struct Said {
    pub fuse_count: Option<u16>,
    pub pin_count: Option<u16>,
    pub default_fuse: Option<bool>,
    pub fuse_sum: Option<u16>,
    pub default_test: Option<bool>,
}

impl Said {
    ghost use Rattle.std.specs.Prelude.{◌≡◌};
    ghost use Rattle.std.specs.Option.{option_or};
    ghost use Rattle.jedec_file.specs.FuseFile as says;
    ghost use Rattle.jedec_reader.specs.SaidBy.{IsSaidBy};

    /// What these fields say.
    pub fn by(fields: &[Field]) -> Said
        ensures { IsSaidBy fields.now result }
    {
        let mut said = Said {
            fuse_count: None,
            pin_count: None,
            default_fuse: None,
            fuse_sum: None,
            default_test: None,
        };
        for field in fields {
            said = said.then_by(field);
        }
        said
    }

    /// The same with one more field after it.
    fn then_by(self, field: &Field) -> Said
        ensures fuse_count { result.fuse_count ≡ option_or (says.fuse_count field.now) self.fuse_count }
        ensures pin_count { result.pin_count ≡ option_or (says.pin_count field.now) self.pin_count }
        ensures default_fuse { result.default_fuse ≡ option_or (says.default_fuse field.now) self.default_fuse }
        ensures fuse_sum { result.fuse_sum ≡ option_or (says.sum_said field.now) self.fuse_sum }
        ensures default_test { result.default_test ≡ option_or (says.default_test field.now) self.default_test }
    {
        match field {
            Field::FuseCount(count) => Said {
                fuse_count: Some(*count),
                ..self
            },
            Field::PinCount(count) => Said {
                pin_count: Some(*count),
                ..self
            },
            Field::DefaultFuse(level) => Said {
                default_fuse: Some(*level),
                ..self
            },
            Field::FuseSum(sum) => Said {
                fuse_sum: Some(*sum),
                ..self
            },
            Field::DefaultTest(level) => Said {
                default_test: Some(*level),
                ..self
            },
            _ => self,
        }
    }
}
