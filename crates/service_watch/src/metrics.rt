//! The text of metrics, as Prometheus reads it.

ghost use Rattle.std.specs.Prelude.{◌≡◌, ◌++◌, OnOk, flat_map, string_bytes};
ghost use Rattle.service_watch.specs.Metrics.{family_text, kind_name, sample_text};

use std::alloc::{AllocError, Global};

/// What a family of samples is.
#[derive(Clone, Copy, Debug, PartialEq, Eq)]
pub enum Kind {
    /// A number that only grows.
    Counter,
    /// A number that may rise and fall.
    Gauge,
    /// How many fell below each of some bounds.
    Histogram,
}

impl Kind {
    // Its name in a text.
    fn name(self) -> &'static str
        ensures { result.now ≡ kind_name self }
    {
        match self {
            Kind::Counter => "counter",
            Kind::Gauge => "gauge",
            Kind::Histogram => "histogram",
        }
    }
}

/// One value of a family.
#[derive(Clone, Copy)]
pub struct Sample {
    /// What comes after the family's name: labels in braces, for example.
    pub labels: &'static str,
    /// The number.
    pub value: u64,
    /// What comes after the number: an exponent, for example.
    pub exponent: &'static str,
}

/// Adds a family of samples: its help, its type and each of its values.
///
/// # Errors
///
/// `AllocError` if memory was refused: a part may have been added.
pub fn push_family(
    alloc: Global,
    text: &mut String,
    name: &str,
    help: &str,
    kind: Kind,
    samples: &[Sample],
) -> Result<(), AllocError>
    ensures { OnOk result (string_bytes text.new ≡ string_bytes text.old
        ++ family_text name.now help.now kind samples.now) }
{
    let kind = kind.name();
    let head = format!(in alloc; "# HELP {name} {help}\n# TYPE {name} {kind}\n")?;
    text.push_str(head.as_str())?;
    push_samples(alloc, text, name, samples)
}

// Adds each value of a family.
fn push_samples(
    alloc: Global,
    text: &mut String,
    name: &str,
    samples: &[Sample],
) -> Result<(), AllocError>
    ensures { OnOk result (string_bytes text.new ≡ string_bytes text.old
        ++ flat_map (sample_text name.now) samples.now) }
{
    for sample in samples {
        push_sample(alloc, text, name, sample)?;
    }
    Ok(())
}

// Adds one value.
fn push_sample(
    alloc: Global,
    text: &mut String,
    name: &str,
    sample: &Sample,
) -> Result<(), AllocError>
    ensures { OnOk result (string_bytes text.new ≡ string_bytes text.old
        ++ sample_text name.now sample.now) }
{
    let Sample {
        labels,
        value,
        exponent,
    } = *sample;
    let line = format!(in alloc; "{name}{labels} {value}{exponent}\n")?;
    text.push_str(line.as_str())
}
