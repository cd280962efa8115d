// Executes the unstarred examples of document 01, and views of sectors, and prints what comes out, line by line.
#![tactic(auto)]

use geometry::Stated;
use std::io;
use std::io::Write;

const TRACK: usize = 2560;

// Room for the list of five writes, the most that a command here makes.
const WRITES: usize = 5 * 259 + 1;

fn main(rt: HostRuntime) -> io::Result<()> {
    sectors_for_lengths(&rt)?;
    directory_growth(&rt)?;
    rename_to_itself(&rt)?;
    views(&rt)
}

// Saves the sheet on a blank disc, and prints its length and the used count of the list.
fn sectors_taken(rt: &impl Print, sheet: &[u8]) -> io::Result<()> {
    let mut image = [0u8; TRACK];
    let mut records = [0u8; 64];
    let mut writes = [0u8; WRITES];
    tandos::tandos_blank(&mut image, 10, 0, b"LENGTHS");
    tandos::tandos_save(
        &mut image,
        10,
        0,
        b"SHEET",
        0,
        0x2000,
        0x2000,
        sheet,
        &mut writes,
    );
    tandos::tandos_list(&image, 10, 0, &mut records);
    let length = sheet.len();
    let used = u16::from_le_bytes([records[12], records[13]]);
    println!(rt; "{length} bytes take {used} sectors")
}

// "L = 1 and 245 take 1; 246 and 498 take 2; 499 takes 3"
fn sectors_for_lengths(rt: &impl Print) -> io::Result<()> {
    let sheet = [0x5Au8; 499];
    sectors_taken(rt, &sheet[..1])?;
    sectors_taken(rt, &sheet[..245])?;
    sectors_taken(rt, &sheet[..246])?;
    sectors_taken(rt, &sheet[..498])?;
    sectors_taken(rt, &sheet)
}

// Saves a file of one sector under a name of one letter, and prints the number and how many sectors are free then.
fn save_letter(rt: &impl Print, image: &mut [u8], letter: u8) -> io::Result<()> {
    let name = [letter];
    let mut records = [0u8; 512];
    let mut writes = [0u8; WRITES];
    let saved = tandos::tandos_save(
        image,
        10,
        0,
        &name,
        0,
        0x2000,
        0x2000,
        b"12 trousers",
        &mut writes,
    );
    tandos::tandos_list(image, 10, 0, &mut records);
    let file = letter as char;
    let number = saved.number;
    let free = u16::from_le_bytes([records[10], records[11]]);
    println!(rt; "save {file}: {number}, free {free}")
}

fn save_letters(rt: &impl Print, image: &mut [u8]) -> io::Result<()> {
    for letter in b'A'..=b'P' {
        save_letter(rt, image, letter)?;
    }
    Ok(())
}

// "The 15th file needs no directory sector, the 16th one more; after one delete the next save needs none."
fn directory_growth(rt: &impl Print) -> io::Result<()> {
    let mut image = [0u8; 3 * TRACK];
    let mut writes = [0u8; WRITES];
    tandos::tandos_blank(&mut image, 10, 0, b"GROWTH");
    save_letters(rt, &mut image)?;
    let number = tandos::tandos_delete(&mut image, 10, 0, b"C", &mut writes).number;
    println!(rt; "delete C: {number}")?;
    save_letter(rt, &mut image, b'Q')
}

// Renames the file THU.PCS to its own name, and gives the number.
fn rename_thursday(image: &mut [u8], writes: &mut [u8]) -> u32 {
    tandos::tandos_rename(image, 10, 0, b"THU.PCS", b"THU.PCS", writes).number
}

// "Rename of an unprotected file to its own name gives 5; of a protected one, 6."
fn rename_to_itself(rt: &impl Print) -> io::Result<()> {
    let mut image = [0u8; TRACK];
    let mut writes = [0u8; WRITES];
    tandos::tandos_blank(&mut image, 10, 0, b"NAMES");
    tandos::tandos_save(
        &mut image,
        10,
        0,
        b"THU.PCS",
        0,
        0x2000,
        0x2000,
        b"7 jackets",
        &mut writes,
    );
    let plain = rename_thursday(&mut image, &mut writes);
    println!(rt; "rename to its own name: {plain}")?;
    tandos::tandos_protect(&mut image, 10, 0, b"THU.PCS", 1, &mut writes);
    let protected = rename_thursday(&mut image, &mut writes);
    println!(rt; "the same, protected: {protected}")
}

// Prints how many bytes a view of the sector shows, and those that are the disc's name in the system sector.
fn view_sector(rt: &impl Print, image: &[u8], sector: u32) -> io::Result<()> {
    let stated = Stated {
        sectors: 10,
        arrangement: 0,
    };
    let shown = view::view(image, stated, 0, sector);
    let length = shown.len();
    print!(rt; "view of 0/{sector}: {length} bytes")?;
    if 31 <= length {
        print!(rt; ", ")?;
        io::writer(rt).write_all(&shown[22..31])?;
    }
    println!(rt)
}

// "shows the 254 bytes after a sector's link where they lie in the image"; "with a refusal .. a view is empty"
fn views(rt: &impl Print) -> io::Result<()> {
    let mut image = [0u8; TRACK];
    tandos::tandos_blank(&mut image, 10, 0, b"THURSDAYS");
    view_sector(rt, &image, 1)?;
    view_sector(rt, &image, 11)
}
