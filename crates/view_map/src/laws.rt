//! Laws of views.

ghost use Rattle.std.specs.Prelude.{◌≡◌, ◌∷◌, ◌++◌, ℕ, true, false, List, Some, Ok};
ghost use Rattle.std.specs.List.{list_all};
ghost use Rattle.depot_path.specs.Bytes.{begins_with};
ghost use Rattle.depot_path.specs.Fit.{fits};
ghost use Rattle.depot_path.specs.Path.{is_path};
ghost use Rattle.view_map.specs.Carry.{is_paired, client_path, depot_file, is_exclusion, is_overlay, has_overlay, takes};
ghost use Rattle.view_map.specs.Mapping.{taken_by_some, path_in, given_by, at_path, mapped};
ghost use Rattle.view_map.specs.Reading.{root_of, view_of};
ghost use Rattle.view_map.specs.declared.mapped.Mapped.TheVariants.{Nothing};
ghost use Rattle.view_map.specs.declared.line.ViewLine.{ViewLine};

/// A line takes a file to a client path exactly where it takes the client path back to the file.
pub fn lines_go_both_ways()
    ensures back { (line : ViewLine) (file path : List ℕ) → is_paired line ≡ true → is_path file ≡ true →
        client_path line file ≡ Some path → depot_file line path ≡ Some file }
    ensures forth { (line : ViewLine) (file path : List ℕ) → is_paired line ≡ true → is_path path ≡ true →
        depot_file line path ≡ Some file → client_path line file ≡ Some path }
{}

/// The last line that takes a file decides for it. Where that is an exclusion, the file has no client path.
pub fn later_lines_decide()
    ensures decides { (before after : List ViewLine) (line : ViewLine) (file : List ℕ) → takes file line ≡ true →
        taken_by_some after file ≡ false →
        mapped (before ++ line ∷ after) file ≡ at_path after (given_by line after file) }
    ensures excludes { (before after : List ViewLine) (line : ViewLine) (file : List ℕ) →
        is_exclusion line.sign ≡ true → fits line.depot file ≡ true →
        taken_by_some after file ≡ false → mapped (before ++ line ∷ after) file ≡ Nothing }
    ensures hides { (before after : List ViewLine) (line : ViewLine) (file path : List ℕ) →
        path_in before file ≡ Some path → is_overlay line.sign ≡ false →
        fits line.client path ≡ true → taken_by_some (line ∷ after) file ≡ false →
        mapped (before ++ line ∷ after) file ≡ Nothing }
{}

/// In a view without overlay lines at most one file is mapped to a client path.
pub fn one_file_without_overlays()
    ensures { (lines : List ViewLine) (path one other : List ℕ) → list_all is_paired lines ≡ true →
        has_overlay lines ≡ false → is_path one ≡ true → is_path other ≡ true →
        path_in lines one ≡ Some path → path_in lines other ≡ Some path → one ≡ other }
{}

/// Every client path of a client's view begins with the client's name.
pub fn client_paths_begin_with_root()
    ensures { (client : List ℕ) (texts : List (List ℕ)) (lines : List ViewLine) (file path : List ℕ) →
        view_of client texts ≡ Ok lines →
        path_in lines file ≡ Some path → begins_with path (root_of client) ≡ true }
{}
