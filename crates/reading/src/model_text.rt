//! From a text to a sound model.
ghost use Rattle.std.specs.Prelude.{is_ok, Decides};
ghost use Rattle.reading.specs.Readings.{ModelFilled, ModelRead, Admitted};

use crate::lines::read_process;
use fault::model::ModelFault;
use model::model::Model;

// The process of the text, and then the model of the process.
fn fill(place: &mut Model, text: &[u8]) -> Result<(), ModelFault>
    ensures { ModelFilled text.now place.old result place.new }
{
    let process = read_process(text)?;
    *place = Model::check(process)?;
    Ok(())
}

/// Fills the place with the model that the text describes. Refused exactly if the text is the writing of no sound
/// process, and then the place is as it was.
pub fn read_model(place: &mut Model, text: &[u8]) -> Result<(), ModelFault>
    ensures read { ModelRead text.now place.old result place.new }
    ensures exact { Decides (is_ok result) (∥ Admitted text.now ∥₁) }
{
    fill(place, text)
}
