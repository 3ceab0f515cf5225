// The names of sites.

ghost use Rattle.std.specs.Prelude.{◌≡◌, ℕ, IfOk, OnOk, Some, None, option_map, nat_eq};
ghost use Rattle.std.specs.HashMap.{get};
ghost use Rattle.log_form.specs.Text.{lines_in};
ghost use Rattle.log_sites.specs.Names.{or_name, name_in, first_name, site_name, name_of, given};

use crate::line::{name_text, site_in};
use log_lines::next_line;
use plain_vec::Listed;
use std::alloc::{AllocError, Global};
use std::collections::HashMap;

/// The names of sites, by their numbers.
#[derive(Drop)]
pub struct SiteNames {
    pub(crate) known: HashMap<u64, Listed<u8>>,
}

impl SiteNames {
    // No site has a name.
    fn new(alloc: Global) -> SiteNames
        ensures { (s : ℕ) → name_of result s ≡ None }
    {
        SiteNames {
            known: HashMap::new(alloc),
        }
    }

    /// The name of a site, if it has one.
    pub fn get(&self, site: u64) -> Option<&[u8]>
        ensures { option_map (λ n. n.now) result ≡ name_of self.now site }
    {
        match self.known.get(&site) {
            Some(name) => Some(name.as_slice()),
            None => None,
        }
    }

    // A site is named, unless it was before.
    fn name(&mut self, site: u64, text: &[u8], alloc: Global) -> Result<(), AllocError>
        ensures { OnOk result ((s : ℕ) → name_of self.new s ≡ or_name (name_of self.old s) (given site text.now s)) }
    {
        if self.known.contains_key(&site) {
            return Ok(());
        }
        let name = Listed::from_vec(text.to_vec(alloc)?);
        self.known.insert(site, name)?;
        Ok(())
    }

    // A line.
    fn take_line(&mut self, line: &[u8], alloc: Global) -> Result<(), AllocError>
        ensures { OnOk result ((s : ℕ) → name_of self.new s ≡ or_name (name_of self.old s) (name_in s line.now)) }
    {
        match site_in(line) {
            Some(site) => self.name(site, name_text(line), alloc),
            None => Ok(()),
        }
    }

    // The lines of a file.
    fn take_text(&mut self, text: &[u8], alloc: Global) -> Result<(), AllocError>
        ensures { OnOk result ((s : ℕ) → name_of self.new s ≡ or_name (name_of self.old s) (first_name s (lines_in text.now))) }
    {
        let mut left = text;
        'lines: loop {
            let (line, rest) = next_line(left);
            match rest {
                None => return Ok(()),
                Some(rest) => {
                    self.take_line(line, alloc)?;
                    left = rest;
                }
            }
        }
    }
}

/// The names of sites in the texts of a log's files: of each site its first.
pub fn site_names(alloc: Global, texts: &[Listed<u8>]) -> Result<SiteNames, AllocError>
    ensures { IfOk result (λ names. (s : ℕ) → name_of names s ≡ site_name texts.now s) }
{
    let mut names = SiteNames::new(alloc);
    for text in texts {
        names.take_text(text.as_slice(), alloc)?;
    }
    Ok(names)
}
