// The forms of numbers.
ghost use Rattle.std.specs.Prelude.{◌≡◌, ◌≤◌, OkIff};
ghost use Rattle.readings.specs.Forms.{form_of};

#[derive(Clone, Copy, Debug, PartialEq, Eq)]
pub enum Form {
    VarUInt,
    VarInt,
    // An Int of the length given.
    Int,
}

// A number that no form has.
#[derive(Clone, Copy, Debug, PartialEq, Eq)]
pub struct NoSuchForm;

// Written out, as that of `Rules` is: no derive makes an enum of its number.
impl TryFrom<u64> for Form {
    type Error = NoSuchForm;

    ghost try_from_gives = { λ form r. OkIff r (form ≤ 2) (form_of form) };

    fn try_from(form: u64) -> Result<Form, NoSuchForm> {
        match form {
            0 => Ok(Form::VarUInt),
            1 => Ok(Form::VarInt),
            2 => Ok(Form::Int),
            _ => Err(NoSuchForm),
        }
    }
}
