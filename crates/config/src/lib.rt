// The configuration file (document 01: line file) into the configuration, or the first refusal among questions 1 to 6.
// The readers of the groups fill one configuration in place: it is copied once, where it is answered.

#![tactic(auto)]

mod devices;
mod fields;
mod groups;
pub mod rows;
mod values;

ghost use Rattle.std.specs.Prelude.{◌≡◌};
ghost use Rattle.model.specs.Answers.{loaded_of};
ghost use Rattle.model.specs.Config.{blank};
ghost use Rattle.model.specs.ConfigFile.{load};

use model::{
    Config, Counts, DEVICE_SLOTS, Devices, ENTRY_SLOTS, OBJECT_SLOTS, Objects, Question,
    VALUE_SLOTS, Values,
};

// The configuration before anything is read.
#[tactic(auto, unfolding(model::specs::Config::blank))]
fn blank() -> Config
    ensures { result ≡ blank }
{
    Config {
        counts: Counts {
            drivers: 0,
            devices: 0,
            objects: 0,
            values: 0,
            edition: 0,
        },
        objects: Objects {
            kind: [0; OBJECT_SLOTS],
            class: [0; OBJECT_SLOTS],
            owner: [0; OBJECT_SLOTS],
        },
        devices: Devices {
            hardcoded: [0; DEVICE_SLOTS],
            serial: [0; DEVICE_SLOTS],
        },
        values: Values {
            count: [0; VALUE_SLOTS],
            entries: [0; ENTRY_SLOTS],
        },
    }
}

// The configuration of a file, or the first question that is answered with no.
pub fn load(file: &[u8]) -> Result<Config, Question>
    ensures { loaded_of result ≡ load file.now }
{
    let (counts, at) = groups::read_counts(file)?;
    let mut config = blank();
    config.counts = counts;
    let at = groups::read_objects(file, counts, at, &mut config.objects)?;
    let at = devices::read_devices(file, counts, at, &mut config.devices)?;
    let at = values::read_values(file, counts, &config.objects, at, &mut config.values)?;
    if at != file.len() {
        return Err(Question::NothingLeft);
    }
    if !sound::is_paired(&config) {
        return Err(Question::Paired);
    }
    if !sound::is_restrained(&config) {
        return Err(Question::Restrained);
    }
    Ok(config)
}
