//! The indices of strings in a file, marked.
ghost use Rattle.std.specs.Prelude.{◌≡◌, fold, map};
ghost use Rattle.std.specs.List.{flat_map};
ghost use Rattle.usb_file_data.specs.File.{interface_string_index, set_string_indices, string_indices};
ghost use Rattle.usb_fields.specs.Marks.{is_marked, marked, unmarked};
ghost use Rattle.usb_file_data.specs.inside.Walk.{endpoint_extra_indices, extra_indices, setting_extra_indices};

use crate::file::DescriptorFile;
use usb_fields::Marks;
use usb_set::{Configuration, Endpoint, Extra, Setting};

/// The indices in a file, marked.
#[tactic(auto, using(crate::proofs::Folds::fold_append))]
pub(crate) fn mark_file(f: &DescriptorFile) -> Marks
    ensures { is_marked result ≡ fold marked unmarked (string_indices f.now) }
{
    let mut marks = Marks::new();
    marks.add(f.device.maker_text);
    marks.add(f.device.product_text);
    marks.add(f.device.serial_text);
    mark_sets(&mut marks, &f.sets);
    if let Some(other) = &f.other {
        mark_sets(&mut marks, &other.sets);
    }
    marks
}

#[tactic(auto, using(crate::proofs::Folds::fold_append))]
fn mark_sets(marks: &mut Marks, sets: &[Configuration])
    ensures { is_marked marks.new ≡ fold marked (is_marked marks.old) (flat_map set_string_indices sets.now) }
{
    for c in sets {
        mark_set(marks, c);
    }
}

#[tactic(auto, using(crate::proofs::ExtraMarks::fold_set))]
fn mark_set(marks: &mut Marks, c: &Configuration)
    ensures { is_marked marks.new ≡ fold marked (is_marked marks.old) (set_string_indices c.now) }
{
    marks.add(c.text);
    mark_settings(marks, &c.settings);
    mark_extras(marks, &c.extras);
    mark_extras_of_settings(marks, &c.settings);
}

#[tactic(auto, using(crate::proofs::Folds::map_from))]
fn mark_settings(marks: &mut Marks, settings: &[Setting])
    ensures { is_marked marks.new ≡ fold marked (is_marked marks.old) (map interface_string_index settings.now) }
{
    for setting in settings {
        marks.add(setting.text);
    }
}

#[tactic(auto, using(crate::proofs::Folds::fold_append))]
fn mark_extras_of_settings(marks: &mut Marks, settings: &[Setting])
    ensures { is_marked marks.new ≡ fold marked (is_marked marks.old) (flat_map setting_extra_indices settings.now) }
{
    for setting in settings {
        mark_extras_of_setting(marks, setting);
    }
}

#[tactic(auto, using(crate::proofs::Folds::fold_append))]
fn mark_extras_of_setting(marks: &mut Marks, setting: &Setting)
    ensures { is_marked marks.new ≡ fold marked (is_marked marks.old) (setting_extra_indices setting.now) }
{
    mark_extras(marks, &setting.extras);
    mark_extras_of_endpoints(marks, &setting.endpoints);
}

#[tactic(auto, using(crate::proofs::Folds::fold_append))]
fn mark_extras_of_endpoints(marks: &mut Marks, endpoints: &[Endpoint])
    ensures { is_marked marks.new ≡ fold marked (is_marked marks.old) (flat_map endpoint_extra_indices endpoints.now) }
{
    for endpoint in endpoints {
        mark_extras(marks, &endpoint.extras);
    }
}

#[tactic(auto, using(crate::proofs::Folds::fold_append))]
fn mark_extras(marks: &mut Marks, extras: &[Extra])
    ensures { is_marked marks.new ≡ fold marked (is_marked marks.old) (flat_map extra_indices extras.now) }
{
    for extra in extras {
        mark_extra(marks, extra);
    }
}

fn mark_extra(marks: &mut Marks, extra: &Extra)
    ensures { is_marked marks.new ≡ fold marked (is_marked marks.old) (extra_indices extra.now) }
{
    if let Extra::Association(association) = extra {
        marks.add(association.text);
    }
}
