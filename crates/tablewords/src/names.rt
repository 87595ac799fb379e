// The names of the entries, and which entry a word names.
ghost use Rattle.std.specs.Prelude.{◌≡◌};
ghost use Rattle.tablewords.specs.Names.{contents, names, name, entry_named, an_entry};

// The names, by entry number.
fn names() -> &'static [&'static [u8]]
    ensures { contents result.now ≡ names }
{
    &[
        b"Channel_DL",
        b"Engine_Sync_DL",
        b"Engine_Zero_DL",
        b"Clutch_Open_DL",
        b"Clutch_Close_DL",
        b"Gear_Set_DL",
        b"Gear_Release_DL",
        b"Sync_EX",
        b"Zero_EX",
        b"Sync_DL",
        b"Zero_DL",
        b"Sync_DE",
        b"Zero_DE",
        b"OpenClutch_DL",
        b"SetGear_DL",
        b"Release_DL",
        b"CloseClutch_DL",
        b"ChangeDL",
        b"Clutch_Open_DE",
        b"Error_Clutch_Open_DE",
        b"Clutch_Close_DE",
        b"Error_Clutch_Close_DE",
    ]
}

// The name of an entry; no bytes for a number that is no entry's, as the definition name has it, and a page prints what it gets.
pub fn name(entry: usize) -> &'static [u8]
    ensures { result.now ≡ name entry }
{
    names().get(entry).copied().unwrap_or(b"")
}

// The number of the entry that a word names, where it names one.
pub fn entry_named(word: &[u8]) -> Option<usize>
    ensures { result ≡ an_entry (entry_named word.now) }
{
    names().iter().position(|name| word == *name)
}
