//! The texts of a registry's file: replaying them, and the fewest that keep the same.

ghost use Rattle.std.specs.Prelude.{◌≡◌, ◌⊎◌, ◌∷◌, map, Ok, Some, None, true, false, IfOk, IfErr, OnOk};
ghost use Rattle.take_journal.specs.Crash.{HasVersion};
ghost use Rattle.take_journal.specs.Frames.{AreShort, texts_of};
ghost use Rattle.registry_file.specs.Kept.{after_text, begun, kept_in, kept_of};
ghost use Rattle.registry_file.specs.File.{TellsWrong};
ghost use Rattle.registry_text.specs.RecordText.{FitsFleet, FitsRecord, fleet_in, fleet_text, record_text};
ghost use Rattle.registry_file.specs.Whole.{AreFit, records_of};

use crate::{Registry, RegistryFault};
use entry::NoMemory;
use registry_text::{
    Record, are_short, one_record, read_fleet, read_record, write_fleet, write_record,
};
use std::alloc::Global;

/// Keeps what a text says. The answer is false if the text is no record's.
fn take_text(registry: &mut Registry, text: &[u8]) -> Result<bool, NoMemory>
    ensures taken { result ≡ Ok true → after_text (kept_in registry.old) text.now ≡ Some (kept_in registry.new) }
    ensures wrong { result ≡ Ok false → after_text (kept_in registry.old) text.now ≡ None }
{
    match read_record(text) {
        Some(record) => {
            registry.reserve()?;
            registry.note(&record);
            Ok(true)
        }
        None => Ok(false),
    }
}

/// A registry without records, of the store that a first text names.
fn first_registry(alloc: Global, text: &[u8]) -> Result<Registry, RegistryFault>
    ensures first { IfOk result (λ registry. (fleet_in text.now ≡ Some (kept_in registry).fleet)
        × (kept_in registry ≡ begun (kept_in registry).fleet)) }
    ensures refused { IfErr result (λ fault. (fault ≡ RegistryFault.NoMemory)
        ⊎ ((fault ≡ RegistryFault.WrongRecord 0) × (fleet_in text.now ≡ None))) }
{
    match read_fleet(alloc, text) {
        Ok(Some(fleet)) => Ok(Registry::new(alloc, fleet)),
        Ok(None) => Err(RegistryFault::WrongRecord(0)),
        Err(_) => Err(RegistryFault::NoMemory),
    }
}

/// Makes a registry of the texts of a file. The first one names the store, and the others are records.
pub(crate) fn replay(alloc: Global, texts: &[Vec<u8>]) -> Result<Registry, RegistryFault>
    ensures shown { IfOk result (λ registry. kept_of (texts_of texts.now) ≡ Some (kept_in registry)) }
    ensures refused { IfErr result (λ fault. TellsWrong fault (texts_of texts.now)) }
{
    if texts.is_empty() {
        return Err(RegistryFault::NotBegun);
    }
    let mut registry = first_registry(alloc, &texts[0])?;
    for i in 1..texts.len() {
        match take_text(&mut registry, &texts[i]) {
            Ok(true) => {}
            Ok(false) => return Err(RegistryFault::WrongRecord(i)),
            Err(_) => return Err(RegistryFault::NoMemory),
        }
    }
    Ok(registry)
}

/// One record for each journal and each least head, and for the master and the format.
fn records_of(alloc: Global, registry: &Registry) -> Result<Vec<Record>, NoMemory>
    ensures { IfOk result (λ records. records.items ≡ records_of registry.now) }
{
    let mut records = Vec::new(alloc);
    for journal in &registry.journals {
        records.push(Record::Journal {
            backup: journal.backup,
            id: journal.file.id,
            count: journal.file.count,
        })?;
    }
    for least in &registry.leasts {
        records.push(Record::Raise {
            master: least.master,
            head: least.head,
        })?;
    }
    if let Some(number) = registry.master {
        records.push(Record::Master(number))?;
    }
    if let Some(number) = registry.format {
        records.push(Record::Format(number))?;
    }
    Ok(records)
}

/// The text of a record.
fn text_of(alloc: Global, record: &Record) -> Result<Vec<u8>, NoMemory>
    ensures text { IfOk result (λ text. text.items ≡ record_text record.now) }
    ensures fits { OnOk result (FitsRecord record.now) }
{
    let mut text = Vec::new(alloc);
    write_record(&mut text, record)?;
    Ok(text)
}

/// The text that names a store.
fn first_text(alloc: Global, registry: &Registry) -> Result<Vec<u8>, NoMemory>
    ensures text { IfOk result (λ text. text.items ≡ fleet_text (kept_in registry.now).fleet) }
    ensures fits { OnOk result (FitsFleet (kept_in registry.now).fleet) }
{
    let mut text = Vec::new(alloc);
    write_fleet(&mut text, registry.fleet.id, &registry.fleet.options)?;
    Ok(text)
}

/// This text, and those of the records behind it.
fn texts_behind(alloc: Global, first: Vec<u8>, records: &[Record]) -> Result<Vec<Vec<u8>>, NoMemory>
    ensures texts { IfOk result (λ texts. texts_of texts.items ≡ first.items ∷ map record_text records.now) }
    ensures fit { OnOk result (AreFit records.now) }
{
    let mut texts = Vec::new(alloc);
    texts.push(first)?;
    for record in records {
        texts.push(text_of(alloc, record)?)?;
    }
    Ok(texts)
}

/// The fewest texts that keep what a registry keeps.
pub(crate) fn whole_texts(alloc: Global, registry: &Registry) -> Result<Vec<Vec<u8>>, NoMemory>
    ensures shown { IfOk result (λ texts. kept_of (texts_of texts.items) ≡ Some (kept_in registry.now)) }
    ensures short { IfOk result (λ texts. AreShort (texts_of texts.items)) }
    ensures version { IfOk result (λ texts. HasVersion (texts_of texts.items)) }
{
    one_record();
    are_short();
    let first = first_text(alloc, registry)?;
    let records = records_of(alloc, registry)?;
    texts_behind(alloc, first, &records)
}
