//! The lines before the turns, and those after them.
ghost use Rattle.std.specs.Prelude.{◌≡◌, ◌++◌, OnOk, decimal, map};
ghost use Rattle.std.specs.List.{flat_map};
ghost use Rattle.iot_gen.specs.Generated.{text_of, client_line, init_lines, add_lines, look_lines, hoard_line, last_lines};
ghost use Rattle.iot_gen.specs.Generated.{line, file_line, declarations, start_lines, end_lines};

use iot_text::{NoMemory, Text};

/// Appends a line with a number in it.
pub(crate) fn put_numbered(
    before: &[u8],
    number: u64,
    after: &[u8],
    out: &mut Text,
) -> Result<(), NoMemory>
    ensures { OnOk result (out.new ≡ out.old ++ line (before.now ++ decimal number ++ after.now)) }
{
    out.append(before)?;
    out.append_number(number)?;
    out.append(after)?;
    out.push(b'\n')
}

/// The clients, by number.
const CLIENTS: [u64; 4] = [1, 2, 3, 4];

/// The files, by number.
const FILES: [u64; 8] = [0, 1, 2, 3, 4, 5, 6, 7];

/// Declares a client.
fn put_client(client: u64, out: &mut Text) -> Result<(), NoMemory>
    ensures { OnOk result (out.new ≡ out.old ++ line (client_line client)) }
{
    put_numbered(b"client c", client, b"", out)
}

/// Declares these clients.
fn put_clients(clients: &[u64], out: &mut Text) -> Result<(), NoMemory>
    ensures { OnOk result (out.new ≡ out.old ++ text_of (map client_line clients.now)) }
{
    for client in clients {
        put_client(*client, out)?;
    }
    Ok(())
}

/// Writes a file that begins with `0`.
fn put_file(file: u64, out: &mut Text) -> Result<(), NoMemory>
    ensures { OnOk result (out.new ≡ out.old ++ line (file_line file)) }
{
    put_numbered(b"write /d/f", file, b" 0", out)
}

/// Writes these files.
fn put_files(files: &[u64], out: &mut Text) -> Result<(), NoMemory>
    ensures { OnOk result (out.new ≡ out.old ++ text_of (map file_line files.now)) }
{
    for file in files {
        put_file(*file, out)?;
    }
    Ok(())
}

/// The script that makes a directory with the files.
fn put_init(out: &mut Text) -> Result<(), NoMemory>
    ensures { OnOk result (out.new ≡ out.old ++ text_of init_lines) }
{
    out.append(b"script init {\nmkdir /d\n")?;
    put_files(&FILES, out)?;
    out.append(b"}\n")
}

/// The script that adds to a file, and prints it.
fn put_add(file: u64, out: &mut Text) -> Result<(), NoMemory>
    ensures { OnOk result (out.new ≡ out.old ++ text_of (add_lines file)) }
{
    put_numbered(b"script add", file, b" {", out)?;
    put_numbered(b"append /d/f", file, b" \"+\"", out)?;
    put_numbered(b"cat /d/f", file, b"", out)?;
    out.append(b"}\n")
}

/// The scripts that add to these files.
fn put_adds(files: &[u64], out: &mut Text) -> Result<(), NoMemory>
    ensures { OnOk result (out.new ≡ out.old ++ text_of (flat_map add_lines files.now)) }
{
    for file in files {
        put_add(*file, out)?;
    }
    Ok(())
}

/// Declares the clients and the scripts.
pub(crate) fn put_declarations(out: &mut Text) -> Result<(), NoMemory>
    ensures { OnOk result (out.new ≡ out.old ++ text_of declarations) }
{
    put_clients(&CLIENTS, out)?;
    put_init(out)?;
    put_adds(&FILES, out)?;
    out.append(b"script look {\nls /d\n}\n")
}

/// Has a client fetch the directory.
fn put_hoard(client: u64, out: &mut Text) -> Result<(), NoMemory>
    ensures { OnOk result (out.new ≡ out.old ++ line (hoard_line client)) }
{
    put_numbered(b"hoard c", client, b" /d", out)
}

/// Has these clients fetch the directory.
fn put_hoards(clients: &[u64], out: &mut Text) -> Result<(), NoMemory>
    ensures { OnOk result (out.new ≡ out.old ++ text_of (map hoard_line clients.now)) }
{
    for client in clients {
        put_hoard(*client, out)?;
    }
    Ok(())
}

/// Makes the files, and has each client fetch them.
pub(crate) fn put_start(out: &mut Text) -> Result<(), NoMemory>
    ensures { OnOk result (out.new ≡ out.old ++ text_of start_lines) }
{
    out.append(b"run c1 init abort\n")?;
    put_hoards(&CLIENTS, out)
}

/// Connects a client, and has it send what it has queued.
fn put_last(client: u64, out: &mut Text) -> Result<(), NoMemory>
    ensures { OnOk result (out.new ≡ out.old ++ text_of (last_lines client)) }
{
    put_numbered(b"connect c", client, b"", out)?;
    put_numbered(b"drain c", client, b"", out)
}

/// Connects these clients in turn, and has each send what it has queued.
fn put_lasts(clients: &[u64], out: &mut Text) -> Result<(), NoMemory>
    ensures { OnOk result (out.new ≡ out.old ++ text_of (flat_map last_lines clients.now)) }
{
    for client in clients {
        put_last(*client, out)?;
    }
    Ok(())
}

/// Connects each client in turn, and has it send what it has queued.
pub(crate) fn put_end(out: &mut Text) -> Result<(), NoMemory>
    ensures { OnOk result (out.new ≡ out.old ++ text_of end_lines) }
{
    put_lasts(&CLIENTS, out)
}
