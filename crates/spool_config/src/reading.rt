//! A configuration as its document tells it.
//!
//! For each key in the stated order Missing comes first, then WrongType, then OutOfRange, before the next key is looked at; each queue whole
//! before the next; SameName over all queues before LimitOverPool. `queue = []` is OutOfRange; an array with an element that is no table is
//! WrongType. A key is looked for in its own table alone: `limit` at the top of the document, or `pages` in the table of a queue, is a key that
//! isn't known and is passed over. A number may be written in any way that TOML has for whole numbers; one that doesn't fit a signed 64-bit
//! integer is NotToml wherever it stands, since the TOML reader says so.
//!
//! A text that is no TOML can't be looked at for other faults, and NotToml is told for octets that aren't UTF-8 too. Memory may be refused while
//! the text is read, so it may be told of a text that has a fault as well.

ghost use Rattle.std.specs.Prelude.{◌≡◌, ◌≢◌, ◌≤◌, ◌⊎◌, All, Some, [], ◌∷◌, IfOk, IfErr, IsErrAnd, MatchResult, IsTrue, IsSome, length, map, not, option_map, slice_get, int_lt, pos, false, true};
ghost use Rattle.std.specs.List.{list_all, list_any, flat_map};
ghost use Rattle.std.specs.Str.{bytes_eq};
ghost use Rattle.toml.specs.Data.{array, string};
ghost use Rattle.toml.specs.Errors.{IsBlank};
ghost use Rattle.toml.specs.View.{view, items_view, table_view};
ghost use Rattle.config_values.specs.Config as C;
ghost use Rattle.config_values.specs.Ranges.{IsWithin, HaveOwnNames};
ghost use Rattle.spool_config.specs.declared.settings.ConfigFault.{ConfigFault as Fault};
ghost use Rattle.spool_config.specs.declared.settings.ConfigFault.TheVariants.{Memory};
ghost use Rattle.spool_config.specs.declared.settings.Key.TheVariants.{Pages, Name, Queue as QueueKey};
ghost use Rattle.spool_config.specs.Keys as K;
ghost use Rattle.spool_config.specs.Told as T;
ghost use Rattle.spool_config.specs.Faults as F;
ghost use Rattle.spool_config.specs.Answers.{GivesConfig, fault_of};

use crate::settings::{ConfigFault, Key};
use config_values::{Config, Queue};
use std::alloc::Global;
use toml::{Table, Value};

/// Reads a configuration, the whole text. Keys that it doesn't know are passed over. The first fault is told: the keys
/// `pages`, `page_size`, `max_jobs`, `account` and `queue` in this order, each queue's `name`, `limit` and `printers`
/// before the next queue's, at each key `Missing`, `WrongType` and `OutOfRange`; then `SameName` and `LimitOverPool`.
/// `Memory` may come at any text that isn't blank.
pub fn read(alloc: Global, text: &[u8]) -> Result<Config, ConfigFault>
    // The configuration that the text gives, and where it gives one, that one, unless memory is refused.
    ensures config { IfOk result (GivesConfig text.now) }
    ensures given { (due : C.Config) → GivesConfig text.now due →
        MatchResult result (λ config. config ≡ due) (λ fault. fault ≡ Memory) }

    // The first fault of the text, and where it has one, that one, unless memory is refused.
    ensures fault { IfErr result (λ fault. fault ≢ Memory → fault_of text.now ≡ Some fault) }
    ensures faulty { (due : Fault) → fault_of text.now ≡ Some due →
        IsErrAnd result (λ fault. (fault ≡ Memory) ⊎ (fault ≡ due)) }
    ensures memory { IfErr result (λ fault. fault ≡ Memory → ¬ IsBlank text.now) }
{
    match toml::table_from_slice(alloc, text) {
        Ok(document) => config(alloc, &document),
        Err(error) if error.is_memory() => Err(ConfigFault::Memory),
        Err(_) => Err(ConfigFault::NotToml),
    }
}

/// The configuration that a document tells.
fn config(alloc: Global, document: &Table) -> Result<Config, ConfigFault>
    ensures config { IfOk result (T.TellsConfig (table_view document.now)) }
    ensures fault { IfErr result (λ fault. fault ≢ Memory →
        slice_get (F.faults_of (table_view document.now)) 0 ≡ Some fault) }
    ensures memory { IfErr result (λ fault. fault ≡ Memory →
        IsSome (K.value_at Pages (table_view document.now))) }
{
    let pages = number(document, Key::Pages)?;
    let page_size = number(document, Key::PageSize)?;
    let max_jobs = number(document, Key::MaxJobs)?;
    let account = number(document, Key::Account)?;
    let queues = queues(alloc, rows(document)?)?;
    if has_same_name(queues.as_slice()) {
        return Err(ConfigFault::SameName);
    }
    if !are_within(pages, queues.as_slice()) {
        return Err(ConfigFault::LimitOverPool);
    }
    let account = u64::from(account);
    Ok(Config::new(pages, page_size, max_jobs, account, queues))
}

/// What stands at a key of a table.
pub(crate) fn value_at(table: &Table, key: Key) -> Option<&Value>
    ensures { option_map (λ v. view v.now) result ≡ K.value_at key (table_view table.now) }
{
    table.get(key.word())
}

/// The whole number at a key, from 1 to its most.
fn number(table: &Table, key: Key) -> Result<u32, ConfigFault>
    ensures stands { IfOk result (T.HasNumber (table_view table.now) key) }
    ensures low { IfOk result (λ n. 1 ≤ n) }
    ensures high { IfOk result (λ n. n ≤ K.most_of key) }
    ensures fault { IfErr result (λ fault.
        F.number_faults key (K.value_at key (table_view table.now)) ≡ fault ∷ []) }
    ensures memory { IfErr result (λ fault. fault ≢ Memory) }
{
    let value = value_at(table, key).ok_or(ConfigFault::Missing(key))?;
    let number = value.as_integer().ok_or(ConfigFault::WrongType(key))?;
    match u32::try_from(number) {
        Ok(number) if 1 <= number && number <= key.most() => Ok(number),
        _ => Err(ConfigFault::OutOfRange(key)),
    }
}

/// The rows of the array at `queue`: 1 to 64 tables.
fn rows(document: &Table) -> Result<&[Value], ConfigFault>
    ensures stands { IfOk result (λ rows.
        K.value_at QueueKey (table_view document.now) ≡ Some (array (items_view rows.now))) }
    ensures tables { IfOk result (λ rows. IsTrue (list_all F.is_row (map view rows.now))) }
    ensures some { IfOk result (λ rows. 1 ≤ length rows.now) }
    ensures few { IfOk result (λ rows. length rows.now ≤ K.most_of QueueKey) }
    ensures fault { IfErr result (λ fault.
        slice_get (F.rows_faults (K.value_at QueueKey (table_view document.now))) 0 ≡ Some fault) }
{
    let Some(value) = value_at(document, Key::Queue) else {
        return Err(ConfigFault::Missing(Key::Queue));
    };
    let Some(rows) = value.as_array() else {
        return Err(ConfigFault::WrongType(Key::Queue));
    };
    let rows = rows.as_slice();
    if !are_tables(rows) {
        return Err(ConfigFault::WrongType(Key::Queue));
    }
    if rows.is_empty() || rows.len() > Key::Queue.most() as usize {
        return Err(ConfigFault::OutOfRange(Key::Queue));
    }
    Ok(rows)
}

/// Whether each of these is a table.
fn are_tables(rows: &[Value]) -> bool
    ensures { result ≡ list_all F.is_row (map view rows.now) }
{
    rows.iter().all(|row| row.is_table())
}

/// The queues that rows tell, in order.
fn queues(alloc: Global, rows: &[Value]) -> Result<Vec<Queue>, ConfigFault>
    requires { IsTrue (list_all F.is_row (map view rows.now)) }
    ensures told { IfOk result (λ queues. T.TellQueues (map view rows.now) queues.items) }
    ensures within { IfOk result (λ queues. All (IsWithin (K.most_of Pages)) queues.items) }
    ensures fault { IfErr result (λ fault. fault ≢ Memory →
        slice_get (flat_map F.row_faults (map view rows.now)) 0 ≡ Some fault) }
{
    let mut queues = Vec::new(alloc);
    for row in rows {
        // Each row is a table: `rows` has looked.
        let Some(table) = row.as_table() else {
            return Err(ConfigFault::WrongType(Key::Queue));
        };
        if queues.push(queue(alloc, table)?).is_err() {
            return Err(ConfigFault::Memory);
        }
    }
    Ok(queues)
}

/// The queue that a table tells.
fn queue(alloc: Global, table: &Table) -> Result<Queue, ConfigFault>
    ensures told { IfOk result (T.TellsQueue (table_view table.now)) }
    ensures within { IfOk result (IsWithin (K.most_of Pages)) }
    ensures fault { IfErr result (λ fault. fault ≢ Memory →
        slice_get (F.queue_faults (table_view table.now)) 0 ≡ Some fault) }
{
    let name = name(table)?;
    let limit = number(table, Key::Limit)?;
    let printers = number(table, Key::Printers)?;
    let name = String::from_str(alloc, name).or(Err(ConfigFault::Memory))?;
    Ok(Queue::new(name, limit, printers))
}

/// The text at `name`, which is a queue's name.
fn name(table: &Table) -> Result<&str, ConfigFault>
    ensures stands { IfOk result (λ name.
        K.value_at Name (table_view table.now) ≡ Some (string name.now)) }
    ensures range { IfOk result (λ name. IsTrue (F.is_name name.now)) }
    ensures fault { IfErr result (λ fault.
        F.name_faults (K.value_at Name (table_view table.now)) ≡ fault ∷ []) }
{
    let value = value_at(table, Key::Name).ok_or(ConfigFault::Missing(Key::Name))?;
    let name = value.as_str().ok_or(ConfigFault::WrongType(Key::Name))?;
    if !is_name(name) {
        return Err(ConfigFault::OutOfRange(Key::Name));
    }
    Ok(name)
}

/// Whether a queue may have this name: 1 to 64 octets, each from 21 to 7E in hexadecimal.
pub fn is_name(name: &str) -> bool
    ensures { result ≡ F.is_name name.now }
{
    let octets = name.as_bytes();
    if octets.is_empty() || octets.len() > Key::Name.most() as usize {
        return false;
    }
    octets.iter().all(|octet| 0x21 <= *octet && *octet <= 0x7e)
}

/// Whether two queues have one name.
fn has_same_name(queues: &[Queue]) -> bool
    ensures value { result ≡ F.has_same (map (λ (q : C.Queue). q.name) queues.now) }
    ensures own { result ≡ false → HaveOwnNames queues.now }
{
    let Some((first, rest)) = queues.split_first() else {
        return false;
    };
    is_among(rest, first.name()) || has_same_name(rest)
}

/// Whether a queue has the name.
fn is_among(queues: &[Queue], name: &[u8]) -> bool
    ensures { result ≡ list_any (bytes_eq name.now) (map (λ (q : C.Queue). q.name) queues.now) }
{
    queues.iter().any(|q| name == q.name())
}

/// Whether each limit is within the pages.
fn are_within(pages: u32, queues: &[Queue]) -> bool
    requires { All (IsWithin (K.most_of Pages)) queues.now }
    ensures value { result ≡ not (list_any (int_lt (pos pages))
        (map (λ (q : C.Queue). pos q.limit) queues.now)) }
    ensures within { result ≡ true → All (IsWithin pages) queues.now }
{
    queues.iter().all(|q| q.limit() <= pages)
}
