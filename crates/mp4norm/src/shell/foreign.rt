//! Boxes that the profile refuses, read as free space, and what is said of them.
use crate::copies::{Freed, read_as_asked};
use crate::running::settled;
use crate::shell::action::{Freeing, Telling};
use crate::shell::file_names::push_shown;
use crate::shell::sources::{LaidSource, Source};
use mp4_answers::box_names::Name;
use mp4_answers::commands::freed_boxes::FreedBoxes;
use mp4_answers::commands::strip_lines::{count_lines, losses, warnings};
use mp4_answers::commands::stripped_store::WithoutForeign;
use mp4_boxes::Refusal;
use mp4_store::LaidStore;
use std::alloc::{AllocError, Global};
use std::io::Write;

/// What is said where nothing is put since something would be lost, with more words.
const LOSSY: &[u8] = b"strip: with --lossy it is put all the same\n";

// What would be lost, behind the name of the file, where that is given; with more words, how it is
// put all the same.
fn losses_text(
    alloc: Global,
    name: Option<&str>,
    found: &FreedBoxes,
    telling: Telling,
) -> Result<Vec<u8>, AllocError> {
    let mut text = Vec::new(alloc);
    push_file(&mut text, name)?;
    text.extend_from_slice(losses(alloc, found)?.as_slice())?;
    if telling.explain {
        text.extend_from_slice(LOSSY)?;
    }
    Ok(text)
}

/// Says what would be lost; with more words, how it is put all the same.
pub(crate) fn tell_losses(
    rt: &HostRuntime,
    found: &FreedBoxes,
    telling: Telling,
) -> Result<(), AllocError> {
    let text = losses_text(rt.alloc(), None, found, telling)?;
    let _ = rt.stderr().write_all(text.as_slice());
    Ok(())
}

// What is said of boxes that are read as free space, behind the name of their file, where that is
// given; nothing where there are none.
fn freed_text(
    alloc: Global,
    name: Option<&str>,
    found: &FreedBoxes,
) -> Result<Vec<u8>, AllocError> {
    let names = [Name::Foreign];
    let mut text = Vec::new(alloc);
    let lines = count_lines(alloc, &names, &[0], found)?;
    if lines.is_empty() {
        return Ok(text);
    }
    push_file(&mut text, name)?;
    text.extend_from_slice(warnings(alloc, &names, found)?.as_slice())?;
    text.extend_from_slice(lines.as_slice())?;
    Ok(text)
}

// The line that names a file, where its name is given.
fn push_file(text: &mut Vec<u8>, name: Option<&str>) -> Result<(), AllocError> {
    if let Some(name) = name {
        text.extend_from_slice(b"file: ")?;
        push_shown(text, name.as_bytes())?;
        text.push(b'\n')?;
    }
    Ok(())
}

/// How boxes of what is read are to be told of: behind which name, and whether at all.
#[derive(Clone, Copy)]
pub(crate) struct Told<'a> {
    pub(crate) name: Option<&'a str>,
    pub(crate) is_told: bool,
    pub(crate) telling: Telling,
}

// What is to be said of boxes that are free space: which these are, or what would be lost with them
// and may not be; then the file is refused.
fn said_of(alloc: Global, freed: Freed, told: Told) -> Result<(Vec<u8>, Option<Refusal>), Refusal> {
    let Some(WithoutForeign { found, refusal }) = freed? else {
        return Ok((Vec::new(alloc), None));
    };
    let said = match refusal {
        _ if !told.is_told => Vec::new(alloc),
        Some(_) => losses_text(alloc, told.name, &found, told.telling)?,
        None => freed_text(alloc, told.name, &found)?,
    };
    Ok((said, refusal))
}

/// What is read, opened, with boxes that are free space laid over it; why it isn't answered of, if
/// it isn't; and what is to be said of these boxes then, or once there is an answer.
#[derive(Drop)]
pub(crate) struct Opened<'a> {
    pub(crate) source: LaidSource<'a>,
    refusal: Option<Refusal>,
    said: Vec<u8>,
}

impl<'a> Opened<'a> {
    /// What is read as it is.
    pub(crate) fn plain(alloc: Global, source: Source<'a>) -> Opened<'a> {
        Opened {
            source: LaidStore::plain(alloc, source),
            refusal: None,
            said: Vec::new(alloc),
        }
    }

    /// Whether it can be answered of.
    pub(crate) fn is_readable(&self) -> bool {
        self.refusal.is_none()
    }

    /// Whether it can be answered of; else why not, and what would be lost is said.
    pub(crate) fn readable(&self, rt: &HostRuntime) -> Result<(), Refusal> {
        match self.refusal {
            None => Ok(()),
            Some(refusal) => {
                self.tell(rt);
                Err(refusal)
            }
        }
    }

    /// Says which boxes were read as free space, or what would be lost with them.
    pub(crate) fn tell(&self, rt: &HostRuntime) {
        let _ = rt.stderr().write_all(self.said.as_slice());
    }
}

/// Goes over the parts of what was opened, each of which has to end with a box. Boxes that the
/// profile refuses are read as free space from now on, where that is asked for.
pub(crate) fn lay_free<'a>(
    alloc: Global,
    told: Told,
    freeing: Freeing,
    source: Source<'a>,
) -> Opened<'a> {
    let mut source = source;
    if let Err(refusal) = source.check_parts() {
        let source = LaidStore::plain(alloc, source);
        let refusal = settled(&source, Err::<(), Refusal>(refusal)).err();
        let said = Vec::new(alloc);
        return Opened {
            source,
            refusal,
            said,
        };
    }
    let (source, freed) = read_as_asked(alloc, freeing, source);
    let (said, refusal) = match said_of(alloc, freed, told) {
        Ok(found) => found,
        Err(refusal) => (Vec::new(alloc), Some(refusal)),
    };
    Opened {
        source,
        refusal,
        said,
    }
}
