//! Which scripts are in a folder.
ghost use Rattle.std.specs.Prelude.{◌≡◌, ◌++◌, ◌∷◌, [], IfOk, List, Ok, OnOk, flat_map, map, option_map, string_bytes, ℕ};
ghost use Rattle.pos_tool.specs.Names.{AreScripts, FindsAt, FindsIn, FindsScripts, found_in, in_folder, script_of};
ghost use Rattle.pos_tool.specs.Texts.{texts};

use crate::fault::Fault;
use crate::folder::Folder;
use std::alloc::{AllocError, Global};

// Puts the script that a name is the wanted answers of, if it is some's, at the end of names.
fn put_script(alloc: Global, scripts: &mut Vec<String>, name: &str) -> Result<(), AllocError>
    ensures { OnOk result (texts scripts.new.items ≡ texts scripts.old.items ++ script_of name.now) }
{
    match name.strip_suffix(".stdout") {
        Some(script) => Ok(scripts.push(String::from_str(alloc, script)?)?),
        None => Ok(()),
    }
}

// The scripts that names are the wanted answers of, in the order of the names.
fn scripts_of(alloc: Global, names: &[String]) -> Result<Vec<String>, AllocError>
    ensures { IfOk result (λ scripts. texts scripts.items ≡ flat_map script_of (texts names.now)) }
{
    let mut scripts = Vec::new(alloc);
    for name in names {
        put_script(alloc, &mut scripts, name)?;
    }
    Ok(scripts)
}

// The scripts in a folder with these names.
fn sorted_scripts(alloc: Global, names: &[String]) -> Result<Vec<String>, AllocError>
    ensures { IfOk result (λ scripts. AreScripts (texts names.now) (texts scripts.items)) }
{
    let mut scripts = scripts_of(alloc, names)?;
    scripts.sort_unstable();
    Ok(scripts)
}

// The path of a name in a folder.
fn in_folder(alloc: Global, folder: &str, name: &str) -> Result<String, AllocError>
    ensures { IfOk result (λ path. string_bytes path ≡ in_folder folder.now name.now) }
{
    let mut path = String::from_str(alloc, folder)?;
    if !folder.as_bytes().ends_with(b"/") {
        path.push_str("/")?;
    }
    path.push_str(name)?;
    Ok(path)
}

// The paths of names in a folder.
fn all_in_folder(alloc: Global, folder: &str, names: &[String]) -> Result<Vec<String>, AllocError>
    ensures { IfOk result (λ paths. texts paths.items ≡ map (in_folder folder.now) (texts names.now)) }
{
    let mut paths = Vec::new(alloc);
    for name in names {
        paths.push(in_folder(alloc, folder, name)?)?;
    }
    Ok(paths)
}

// The paths of the scripts in a folder with these names.
fn scripts_in<'a>(
    alloc: Global,
    folder: &'a str,
    names: &[String],
) -> Result<Vec<String>, Fault<'a>>
    ensures { FindsIn folder.entry.now (texts names.now) (found_in result) }
{
    let Ok(scripts) = sorted_scripts(alloc, names) else {
        return Err(Fault::NoMemory);
    };
    if scripts.is_empty() {
        return Err(Fault::NoScripts { path: folder });
    }
    match all_in_folder(alloc, folder, &scripts) {
        Ok(paths) => Ok(paths),
        Err(_) => Err(Fault::NoMemory),
    }
}

// A path alone.
fn only(alloc: Global, path: &str) -> Result<Vec<String>, AllocError>
    ensures { IfOk result (λ paths. texts paths.items ≡ path.now ∷ []) }
{
    let mut paths = Vec::new(alloc);
    paths.push(String::from_str(alloc, path)?)?;
    Ok(paths)
}

// The paths that a path stands for: itself, or those of the scripts in its folder.
fn found_at<'a, S: Folder + AllocGlobal>(
    system: &S,
    path: &'a str,
) -> Result<Vec<String>, Fault<'a>>
    ensures { FindsAt S.Folder system.now path.entry.now (found_in result) }
{
    match system.names(path) {
        Ok(Some(names)) => scripts_in(system.alloc(), path, &names),
        Ok(None) => match only(system.alloc(), path) {
            Ok(paths) => Ok(paths),
            Err(_) => Err(Fault::NoMemory),
        },
        Err(cause) => Err(Fault::Folder { path, cause }),
    }
}

/// Returns the paths of the scripts that paths stand for, in order: each itself, or, if it is a folder's, those of the
/// scripts in it. docs/reference/tool.md, "test".
///
/// # Errors
///
/// `Folder` for the first folder that can't be listed, `NoScripts` for the first without a script, and `NoMemory`.
pub(crate) fn find_scripts<'a, S: Folder + AllocGlobal>(
    system: &S,
    paths: &[&'a str],
) -> Result<Vec<String>, Fault<'a>>
    ensures { FindsScripts S.Folder system.now paths.entry.now (found_in result) }
{
    let mut found = Vec::new(system.alloc());
    for path in paths {
        let mut more = match found_at(system, *path) {
            Ok(more) => more,
            Err(fault) => return Err(fault),
        };
        let Ok(()) = found.append(&mut more) else {
            return Err(Fault::NoMemory);
        };
    }
    Ok(found)
}
