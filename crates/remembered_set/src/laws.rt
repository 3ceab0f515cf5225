// Laws of noted and lifted sources.

use object_layout::Words;
