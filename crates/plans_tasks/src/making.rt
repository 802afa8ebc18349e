//! The rows that the creation of an instance makes.
ghost use Rattle.std.specs.Prelude.{◌≡◌, IfOk, ◌∷◌, [], unwrap_or};
ghost use Rattle.row_machine.specs.machine.Rows.{default_name};
ghost use Rattle.row_machine.specs.machine.NewRows.{new_description, new_config};
ghost use Rattle.row_machine.specs.machine.NewRows.{new_devices, patched_config};
ghost use Rattle.row_machine.specs.machine.NewRows.{patched_devices, image_of};
ghost use Rattle.row_machine.specs.machine.NewRows.{made_instance, copied_instance};

use crate::pairs::both;
use config_lists::{Config, Devices};
use records::{Body, Instance, Origin};
use rows_made::{new_config, new_description, new_devices, patched_config, patched_devices};
use size_values::{Kind, NoMemory, Seq, Text};
use std::alloc::Global;

/// The alias or fingerprint of an image.
pub(crate) fn image_of(origin: &Origin) -> &str
    ensures { result.now ≡ image_of origin.now }
{
    match origin {
        Origin::None => "",
        Origin::Image(alias) => alias.view(),
        Origin::Copy { .. } => "",
    }
}

/// A list of its own with the same texts.
pub fn copy_texts(alloc: Global, texts: &[Text]) -> Result<Seq<Text>, NoMemory>
    ensures { IfOk result (λ c. c ≡ texts.now) }
{
    let mut copy = Seq::new(alloc);
    for text in texts {
        copy.push(text.copy(alloc)?)?;
    }
    Ok(copy)
}

/// The profile `default` alone.
fn default_profiles(alloc: Global) -> Result<Seq<Text>, NoMemory>
    ensures { IfOk result (λ names. names ≡ default_name ∷ []) }
{
    let mut names = Seq::new(alloc);
    names.push(Text::from_text(alloc, "default")?)?;
    Ok(names)
}

/// Without `profiles` an instance has the profile `default` alone.
fn new_profiles(alloc: Global, body: &Body) -> Result<Seq<Text>, NoMemory>
    ensures { IfOk result (λ names. names ≡ unwrap_or body.now.profiles (default_name ∷ [])) }
{
    match &body.profiles {
        Some(names) => copy_texts(alloc, names.view()),
        None => default_profiles(alloc),
    }
}

/// A copy without `profiles` has those of its source.
fn copied_profiles(alloc: Global, body: &Body, old: &Seq<Text>) -> Result<Seq<Text>, NoMemory>
    ensures { IfOk result (λ names. names ≡ unwrap_or body.now.profiles old.now) }
{
    match &body.profiles {
        Some(names) => copy_texts(alloc, names.view()),
        None => copy_texts(alloc, old.view()),
    }
}

/// The texts of a new instance.
#[derive(Drop)]
struct Texts {
    project: Text,
    name: Text,
    description: Text,
    origin: Text,
}

fn new_texts(alloc: Global, project: &Text, name: &Text, body: &Body) -> Result<Texts, NoMemory>
    ensures { IfOk result (λ t. t
        ≡ record {
          project = project.now;
          name = name.now;
          description = new_description body.now;
          origin = image_of body.now.origin;
        }) }
{
    let names = both(project.copy(alloc), name.copy(alloc));
    let origin = Text::from_text(alloc, image_of(&body.origin));
    let (names, told) = both(names, both(new_description(alloc, body), origin))?;
    Ok(Texts {
        project: names.0,
        name: names.1,
        description: told.0,
        origin: told.1,
    })
}

/// What a new instance has.
#[derive(Drop)]
struct Parts {
    profiles: Seq<Text>,
    config: Config,
    devices: Devices,
}

fn new_parts(alloc: Global, body: &Body) -> Result<Parts, NoMemory>
    ensures { IfOk result (λ p. p
        ≡ record {
          profiles = unwrap_or body.now.profiles (default_name ∷ []);
          config = new_config body.now;
          devices = new_devices body.now;
        }) }
{
    let settings = both(new_config(alloc, body), new_devices(alloc, body));
    let (profiles, settings) = both(new_profiles(alloc, body), settings)?;
    Ok(Parts {
        profiles,
        config: settings.0,
        devices: settings.1,
    })
}

/// A new instance, from nothing or from an image.
pub(crate) fn made_instance(
    alloc: Global,
    project: &Text,
    name: &Text,
    body: &Body,
    moment: u64,
) -> Result<Instance, NoMemory>
    ensures { IfOk result (λ r. r ≡ made_instance project.now name.now body.now moment) }
{
    let texts = new_texts(alloc, project, name, body);
    let (texts, given) = both(texts, new_parts(alloc, body))?;
    Ok(Instance {
        project: texts.project,
        name: texts.name,
        kind: body.kind.unwrap_or(Kind::Container),
        ephemeral: body.ephemeral.unwrap_or(false),
        description: texts.description,
        origin: texts.origin,
        created: moment,
        profiles: given.profiles,
        config: given.config,
        devices: given.devices,
    })
}

/// What a copy takes from an instance or from its snapshot.
#[derive(Clone, Copy)]
pub(crate) struct Source<'x> {
    pub kind: Kind,
    pub profiles: &'x Seq<Text>,
    pub config: &'x Config,
    pub devices: &'x Devices,
}

fn copied_parts(alloc: Global, body: &Body, source: &Source) -> Result<Parts, NoMemory>
    ensures { IfOk result (λ p. p
        ≡ record {
          profiles = unwrap_or body.now.profiles source.now.profiles.now;
          config = patched_config source.now.config.now body.now;
          devices = patched_devices source.now.devices.now body.now;
        }) }
{
    let settings = both(
        patched_config(source.config, body),
        patched_devices(source.devices, body),
    );
    let (profiles, settings) = both(copied_profiles(alloc, body, source.profiles), settings)?;
    Ok(Parts {
        profiles,
        config: settings.0,
        devices: settings.1,
    })
}

/// A copy of an instance or of its snapshot, with what the request gives over it.
pub(crate) fn copied_instance(
    alloc: Global,
    project: &Text,
    name: &Text,
    body: &Body,
    moment: u64,
    source: &Source,
) -> Result<Instance, NoMemory>
    ensures { IfOk result (λ r. r
        ≡ copied_instance project.now name.now body.now moment
        (record {
          kind = source.now.kind;
          profiles = source.now.profiles.now;
          config = source.now.config.now;
          devices = source.now.devices.now;
        })) }
{
    let texts = new_texts(alloc, project, name, body);
    let (texts, given) = both(texts, copied_parts(alloc, body, source))?;
    Ok(Instance {
        project: texts.project,
        name: texts.name,
        kind: source.kind,
        ephemeral: body.ephemeral.unwrap_or(false),
        description: texts.description,
        origin: texts.origin,
        created: moment,
        profiles: given.profiles,
        config: given.config,
        devices: given.devices,
    })
}
