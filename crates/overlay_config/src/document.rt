//! Texts as TOML documents.
ghost use Rattle.toml.specs.View.{table_view};
ghost use Rattle.config_text.specs.Fault.{GivesAs};
ghost use Rattle.overlay_config.specs.Document.{document};

use config_text::SettingsFault;
use std::alloc::Global;
use toml::Table;

/// The table of a document. `NotToml`: the text isn't UTF-8, or isn't TOML.
pub(crate) fn read_document(alloc: Global, text: &[u8]) -> Result<Table, SettingsFault>
    ensures { GivesAs table_view result (document text.now) }
{
    let Ok(text) = std::str::from_utf8(text) else {
        return Err(SettingsFault::NotToml);
    };
    match toml::table_from_str(alloc, text) {
        Ok(table) => Ok(table),
        Err(e) if e.is_memory() => Err(SettingsFault::OutOfMemory),
        Err(_) => Err(SettingsFault::NotToml),
    }
}
