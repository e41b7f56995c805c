//! A set of which some descriptors were read.
ghost use Rattle.std.specs.Prelude.{◌≡◌, ◌≤◌, [], length, take, true, None, OnOk, OnErr};
ghost use Rattle.usb_set.specs.Faults.{is_whole};
ghost use Rattle.usb_set.specs.inside.Reading.{first};
ghost use Rattle.usb_set.specs.inside.Stepping.{InWork, IsStart, IsWanting, fault_at, is_done, past, place_of, whole_tree};

use crate::attachment::{attach, read_configuration};
use crate::descriptor_check::{declared_total, fault_in_header, fault_in_item, is_in_setting};
use crate::fault::{SetFault, SetWhy};
use crate::tree::Configuration;
use std::alloc::{AllocError, Global};
use std::marker::Model;

/// The tree so far, wTotalLength, and where the next descriptor starts. Before the first descriptor
/// there is no tree.
#[derive(Debug, Drop)]
pub(crate) struct Partial {
    tree: Option<Configuration>,
    total: usize,
    place: usize,
}

impl Model for Partial {
    ghost use Rattle.usb_set.specs.inside.Reading.{Reading};
    ghost use Rattle.usb_set.specs.inside.Stepping.{IsStart, partial_of};

    ghost Value = { Reading };

    ghost view = { λ p. partial_of p.tree p.total p.place };

    ghost invariant = { λ p. IsStart (partial_of p.tree p.total p.place) };
}

impl Partial {
    /// Nothing read yet.
    pub(crate) fn new() -> Partial
        ensures { result ≡ first [] }
    {
        Partial {
            tree: None,
            total: 0,
            place: 0,
        }
    }

    /// Whether all of wTotalLength was read.
    pub(crate) fn is_done(&self) -> bool
        ensures { result ≡ is_done self.now }
    {
        self.place == self.total && self.tree.is_some()
    }

    /// Where the current descriptor starts.
    pub(crate) fn place(&self) -> usize
        ensures value { result ≡ place_of self.now }
        ensures bound { result ≤ 65535 }
    {
        match &self.tree {
            None => 0,
            Some(_) => self.place,
        }
    }

    /// Out of memory for the current descriptor.
    pub(crate) fn out_of_memory(&self) -> SetFault
        ensures { IsWanting (place_of self.now) result }
    {
        SetFault {
            at: self.place() as u32,
            why: SetWhy::Memory,
        }
    }

    /// The fault that the bytes of the current descriptor show, as many as are there.
    #[inline(always)]
    pub(crate) fn fault_in(&self, bytes: &[u8]) -> Option<SetFault>
        requires { InWork self.now }
        ensures { result ≡ fault_at self.now bytes.now }
    {
        match &self.tree {
            None => {
                let (place, why) = fault_in_header(bytes)?;
                Some(SetFault {
                    at: place as u32,
                    why,
                })
            }
            Some(c) => {
                let why = fault_in_item(self.total - self.place, is_in_setting(c), bytes)?;
                Some(SetFault {
                    at: self.place as u32,
                    why,
                })
            }
        }
    }

    /// The same where the first `before` bytes show no fault.
    pub(crate) fn fault_in_more(&self, before: usize, bytes: &[u8]) -> Option<SetFault>
        requires work { InWork self.now }
        requires within { before ≤ length bytes.now }
        requires fine { fault_at self.now (take before bytes.now) ≡ None }
        ensures { result ≡ fault_at self.now bytes.now }
    {
        // No fault lies after wTotalLength.
        if before >= 4 {
            return None;
        }
        self.fault_in(bytes)
    }

    /// Adds a whole descriptor. When out of memory the place stays.
    #[inline(always)]
    pub(crate) fn grow(&mut self, alloc: Global, item: &[u8]) -> Result<(), AllocError>
        requires work { InWork self.old }
        requires fine { fault_at self.old item.now ≡ None }
        requires whole { is_whole item.now ≡ true }
        ensures ok { OnOk result (self.new ≡ past self.old item.now) }
        ensures err { OnErr result (place_of self.new ≡ place_of self.old) }
        ensures start { IsStart self.new }
    {
        match &mut self.tree {
            None => {
                let c = read_configuration(alloc, item)?;
                self.total = declared_total(item);
                self.place = item.len();
                self.tree = Some(c);
            }
            Some(c) => {
                attach(alloc, c, item[1], &item[2..])?;
                self.place += item.len();
            }
        }
        Ok(())
    }

    /// The tree, if all of it was read.
    #[inline(always)]
    pub(crate) fn into_whole(self) -> Option<Configuration>
        ensures { result ≡ whole_tree self }
    {
        let Partial { tree, total, place } = self;
        if place == total { tree } else { None }
    }
}
