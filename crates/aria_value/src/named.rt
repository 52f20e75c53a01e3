ghost use Rattle.std.specs.Prelude.{◌≡◌, List, ℕ};
ghost use Rattle.std.specs.List.{list_any};
ghost use Rattle.aria_value.specs.Named.{same_name, distinct, nth_named};

use aria_page::Name;

/// What has a name, as a column and a key do.
pub trait Named {
    ghost named: { Self → List ℕ };

    fn name(&self) -> &Name
        ensures { result.now ≡ named self.now };
}

/// The number of the first item of this name, counted from 0.
pub fn number_of<T: Named>(items: &[T], name: &Name) -> Option<usize>
    ensures { result ≡ nth_named T.named items.now name.now }
{
    for (nth, item) in items.iter().enumerate() {
        if *item.name() == *name {
            return Some(nth);
        }
    }
    None
}

/// Whether an item has this name.
pub fn has_name<T: Named>(items: &[T], name: &Name) -> bool
    ensures { result ≡ list_any (λ item. same_name name.now (T.named item)) items.now }
{
    items.iter().any(|item| *name == *item.name())
}

/// Whether no two items have the same name.
pub fn have_distinct_names<T: Named>(items: &[T]) -> bool
    ensures { result ≡ distinct (λ a b. same_name (T.named a) (T.named b)) items.now }
{
    for (nth, item) in items.iter().enumerate() {
        if has_name(&items[nth + 1..], item.name()) {
            return false;
        }
    }
    true
}
