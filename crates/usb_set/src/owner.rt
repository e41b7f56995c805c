//! What an extra of a set belongs to, and iterators over its owners, endpoints, extras and associations.
ghost use Rattle.std.specs.Prelude.{◌≡◌};
ghost use Rattle.std.specs.Iterator.{YieldsFirstBy, item_count};

use crate::extra::{Association, Extra};
use crate::tree::{Configuration, Endpoint, Setting};

/// What an extra of a set belongs to: the typed descriptor before it.
#[derive(Clone, Copy, Debug)]
pub enum Owner<'a> {
    /// The configuration itself.
    Configuration(&'a Configuration),
    /// An interface at one of its alternate settings.
    Setting(&'a Setting),
    /// An endpoint, after the setting that it belongs to.
    Endpoint(&'a Setting, &'a Endpoint),
}

impl<'a> Owner<'a> {
    ghost use Rattle.usb_set.specs.Owners.{extras_of_holder, holder_of};

    /// The extras that belong to it.
    pub fn extras(self) -> &'a [Extra]
        ensures { result.now ≡ extras_of_holder (holder_of self.entry) }
    {
        match self {
            Owner::Configuration(c) => &c.extras,
            Owner::Setting(setting) => &setting.extras,
            Owner::Endpoint(_, endpoint) => &endpoint.extras,
        }
    }
}

/// The settings and endpoints of a set in the order of its bytes.
#[derive(Clone, Copy, Debug)]
pub(crate) struct Owners<'a> {
    /// The current setting.
    pub(crate) setting: Option<&'a Setting>,
    /// Its endpoints that are still to come.
    pub(crate) endpoints: &'a [Endpoint],
    /// The settings after it.
    pub(crate) settings: &'a [Setting],
}

impl<'a> Iterator for Owners<'a> {
    ghost use Rattle.usb_set.specs.Owners.{holder_of, holders_left};

    type Item = Owner<'a>;

    ghost next_gives = { YieldsFirstBy holder_of holders_left };

    ghost remaining = { item_count holders_left };

    fn next(&mut self) -> Option<Owner<'a>> {
        if let Some(setting) = self.setting
            && let Some((endpoint, later)) = self.endpoints.split_first()
        {
            self.endpoints = later;
            return Some(Owner::Endpoint(setting, endpoint));
        }
        let (setting, later) = self.settings.split_first()?;
        self.setting = Some(setting);
        self.endpoints = &setting.endpoints;
        self.settings = later;
        Some(Owner::Setting(setting))
    }
}

/// The endpoints of a set in the order of its bytes, each with the setting that it belongs to: what
/// [`Configuration::endpoints`] goes over.
#[derive(Clone, Copy, Debug)]
pub struct Endpoints<'a> {
    /// The settings from the current one on.
    settings: &'a [Setting],
    /// How many endpoints of the first of them were given.
    given: usize,
}

impl Configuration {
    ghost use Rattle.usb_set.specs.Owners.{endpoints_of, endpoints_left};

    /// The endpoints of all settings in the order of the set's bytes, each with its setting.
    ///
    /// ```rust
    /// for (setting, endpoint) in set.endpoints() {
    ///     println!(rt; "{} {}: {}", setting.number, setting.alternate, endpoint.number())?;
    /// }
    /// ```
    pub fn endpoints(&self) -> Endpoints<'_>
        ensures { endpoints_left result ≡ endpoints_of self.now }
    {
        Endpoints {
            settings: &self.settings,
            given: 0,
        }
    }
}

impl<'a> Iterator for Endpoints<'a> {
    ghost use Rattle.usb_set.specs.Owners.{endpoints_left, with_setting};

    type Item = (&'a Setting, &'a Endpoint);

    ghost next_gives = { YieldsFirstBy with_setting endpoints_left };

    ghost remaining = { item_count endpoints_left };

    fn next(&mut self) -> Option<(&'a Setting, &'a Endpoint)> {
        while let Some((setting, later)) = self.settings.split_first() {
            if let Some(endpoint) = setting.endpoints.get(self.given) {
                self.given += 1;
                return Some((setting, endpoint));
            }
            self.settings = later;
            self.given = 0;
        }
        None
    }
}

/// The extras of a set in the order of its bytes, each with what it belongs to: what [`Configuration::all_extras`] goes
/// over.
#[derive(Clone, Copy, Debug)]
pub struct Extras<'a> {
    /// The current owner.
    owner: Owner<'a>,
    /// Its extras that are still to come.
    extras: &'a [Extra],
    /// The owners after it.
    owners: Owners<'a>,
}

/// The associations of a set in the order of its bytes, each with what it belongs to: what
/// [`Configuration::associations`] goes over.
#[derive(Clone, Copy, Debug)]
pub struct Associations<'a> {
    extras: Extras<'a>,
}

impl Configuration {
    ghost use Rattle.usb_set.specs.Owners.{held_associations, held_extras, associations_left, extras_left};

    /// The extras of the configuration, its settings and their endpoints in the order of the set's bytes, each with what
    /// it belongs to.
    ///
    /// ```rust
    /// for (owner, extra) in set.all_extras() {
    ///     if let (Owner::Setting(setting), Extra::Raw(raw)) = (owner, extra) {
    ///         println!(rt; "interface {}: a descriptor of type {}", setting.number, raw.kind)?;
    ///     }
    /// }
    /// ```
    pub fn all_extras(&self) -> Extras<'_>
        ensures { extras_left result ≡ held_extras self.now }
    {
        Extras {
            owner: Owner::Configuration(self),
            extras: &self.extras,
            owners: Owners {
                setting: None,
                endpoints: &[],
                settings: &self.settings,
            },
        }
    }

    /// The interface associations of the set in the order of its bytes, each with what it belongs to.
    ///
    /// ```rust
    /// for (_, association) in set.associations() {
    ///     println!(rt; "interfaces from {}: {}", association.first, association.count)?;
    /// }
    /// ```
    pub fn associations(&self) -> Associations<'_>
        ensures { associations_left result ≡ held_associations self.now }
    {
        Associations {
            extras: self.all_extras(),
        }
    }
}

impl<'a> Iterator for Extras<'a> {
    ghost use Rattle.usb_set.specs.Owners.{extras_left, with_holder};

    type Item = (Owner<'a>, &'a Extra);

    ghost next_gives = { YieldsFirstBy with_holder extras_left };

    ghost remaining = { item_count extras_left };

    fn next(&mut self) -> Option<(Owner<'a>, &'a Extra)> {
        'owners: loop {
            if let Some((extra, later)) = self.extras.split_first() {
                self.extras = later;
                return Some((self.owner, extra));
            }
            let owner = self.owners.next()?;
            self.owner = owner;
            self.extras = owner.extras();
        }
    }
}

impl<'a> Iterator for Associations<'a> {
    ghost use Rattle.usb_set.specs.Owners.{association_with_holder, associations_left};

    type Item = (Owner<'a>, &'a Association);

    ghost next_gives = { YieldsFirstBy association_with_holder associations_left };

    ghost remaining = { item_count associations_left };

    fn next(&mut self) -> Option<(Owner<'a>, &'a Association)> {
        while let Some((owner, extra)) = self.extras.next() {
            if let Extra::Association(association) = extra {
                return Some((owner, association));
            }
        }
        None
    }
}
