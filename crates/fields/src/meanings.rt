// The fields of a kind of step, in their order.
ghost use Rattle.std.specs.Prelude.{◌≡◌, length, take};
ghost use Rattle.octets.specs.Lists.{overwrite};
ghost use Rattle.fields.specs.Meanings.{has_size, size_of, fields_mean, fields_data};

use crate::words::{data_field, end_fault, number_field};
use crate::{Fault, Step};
use kinds::{command_zero, has_data, span_zero};

// Does a length stand in the line of a kind? That of the data does not.
#[tactic(auto, unfolding(crate::specs::Meanings::has_size))]
fn has_size(kind: usize) -> bool
    ensures { result ≡ has_size kind }
{
    !span_zero(kind) && !has_data(kind)
}

#[tactic(auto, unfolding(crate::specs::Meanings::size_of))]
fn size_of(kind: usize, size: usize, given: usize) -> usize
    ensures { result ≡ size_of kind size given }
{
    if has_data(kind) { given } else { size }
}

// What the fields of a kind mean, which are all of a text. Their data are put to the front of the buffer, also where another field is at
// fault; so each field is read before the first fault is looked for.
#[tactic(auto, unfolding(crate::specs::Meanings::fields_mean, crate::specs::Meanings::fields_data))]
pub fn meaning_of(text: &[u8], kind: usize, buffer: &mut [u8]) -> Result<Step, Fault>
    ensures meaning { result ≡ fields_mean text.now kind }
    ensures bytes { buffer.new ≡ overwrite buffer.old 0 (take (length buffer.old) (fields_data text.now kind)) }
{
    let command = number_field(text, 0, !command_zero(kind));
    let address = number_field(text, command.next, !span_zero(kind));
    let size = number_field(text, address.next, has_size(kind));
    let data = data_field(text, size.next, has_data(kind), buffer);
    let command = command.value?;
    let address = address.value?;
    let size = size.value?;
    let given = data.value?;
    end_fault(text, data.next)?;
    Ok(Step {
        kind,
        command,
        address,
        size: size_of(kind, size, given),
        given,
    })
}
