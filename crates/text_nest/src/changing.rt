//! What a comma, a bar and an arrow make of the innermost open term.
ghost use Rattle.std.specs.Prelude.{◌≡◌, cond, Some, None, IfOk};
ghost use Rattle.text_model.specs.Nest.{frame_after_comma, frame_after_bar, frame_after_arrow};
ghost use Rattle.text_nest.specs.NestView.{frame_of, place_of, divided};
ghost use Rattle.text_nest.specs.Fits.{IsApart};

use crate::Memory;
use crate::nest::{NestPlace, Open};
use text_model::Mark;

impl Open {
    /// Takes a comma, a bar or an arrow behind a part; `false` where it may not stand.
    pub(crate) fn divide(&mut self, mark: Mark, place: NestPlace) -> Result<bool, Memory>
        requires { IsApart (frame_of self.old) }
        ensures { IfOk result (λ taken. divided mark (frame_of self.old) (place_of place) ≡ cond taken (Some (frame_of self.new)) None) }
    {
        match mark {
            Mark::Comma => self.comma(place),
            Mark::Bar => self.bar(place),
            _ => Ok(self.arrow(place)),
        }
    }

    fn comma(&mut self, place: NestPlace) -> Result<bool, Memory>
        requires { IsApart (frame_of self.old) }
        ensures { IfOk result (λ taken. frame_after_comma (frame_of self.old) (place_of place) ≡ cond taken (Some (frame_of self.new)) None) }
    {
        match self {
            Open::Tuple(parts) => match place {
                NestPlace::After(_, part) => {
                    parts.push(part)?;
                    Ok(true)
                }
                _ => Ok(false),
            },
            Open::List(parts, false) => match place {
                NestPlace::After(_, part) => {
                    parts.push(part)?;
                    Ok(true)
                }
                _ => Ok(false),
            },
            Open::Map(pairs, key) => match place {
                NestPlace::After(_, value) => match key.take() {
                    Some(key) => {
                        pairs.insert(key, value)?;
                        Ok(true)
                    }
                    None => Ok(false),
                },
                _ => Ok(false),
            },
            Open::Bits(bytes) => match place {
                NestPlace::Number(_, value) => {
                    bytes.push(value)?;
                    Ok(true)
                }
                NestPlace::Segment => Ok(true),
                _ => Ok(false),
            },
            Open::List(_, true) => Ok(false),
        }
    }

    fn bar(&mut self, place: NestPlace) -> Result<bool, Memory>
        ensures { IfOk result (λ taken. frame_after_bar (frame_of self.old) (place_of place) ≡ cond taken (Some (frame_of self.new)) None) }
    {
        match self {
            Open::List(parts, is_barred) if !*is_barred => match place {
                NestPlace::After(_, part) => {
                    parts.push(part)?;
                    *is_barred = true;
                    Ok(true)
                }
                _ => Ok(false),
            },
            _ => Ok(false),
        }
    }

    fn arrow(&mut self, place: NestPlace) -> bool
        ensures { frame_after_arrow (frame_of self.old) (place_of place) ≡ cond result (Some (frame_of self.new)) None }
    {
        match self {
            Open::Map(_, key) if key.is_none() => match place {
                NestPlace::After(_, part) => {
                    *key = Some(part);
                    true
                }
                _ => false,
            },
            _ => false,
        }
    }
}
